// Cases on what is claimed of a frame: three planes more, judged by the box.
ghost use Rattle.std.specs.Prelude.{◌≡◌};
ghost use Rattle.rows.specs.Paint.{input_picture, output_picture};
ghost use Rattle.judge.specs.Judge.{judgement};

use crate::pictures::ROOM;
use case_words::plane;
use corkplover::judging;
use judge::Difference;
use planes::three::Planes;
use refusal::Refusal;
use rows::paint::Size;
use setting::{Setting, Way};
use std::io;
use text::reading::Words;

fn judged(
    way: Way,
    s: Setting,
    z: Size,
    a: Planes<'_>,
    b: Planes<'_>,
) -> Result<Option<Difference>, Refusal>
    ensures { result ≡ judgement way s (input_picture z a.entry.p0.now a.entry.p1.now a.entry.p2.now)
        (output_picture z b.entry.p0.now b.entry.p1.now b.entry.p2.now) }
{
    match way {
        Way::Forward => judging::judge_forward(s, z, a.p0, a.p1, a.p2, b.p0, b.p1, b.p2),
        Way::Reverse => judging::judge_reverse(s, z, a.p0, a.p1, a.p2, b.p0, b.p1, b.p2),
    }
}

// The claimed planes, with which the line ends.
pub fn judge(
    rt: &impl Print,
    words: Words<'_>,
    way: Way,
    s: Setting,
    z: Size,
    a: Planes<'_>,
) -> io::Result<()> {
    let mut words = words;
    let mut b0 = [0u16; ROOM];
    let mut b1 = [0u16; ROOM];
    let mut b2 = [0u16; ROOM];
    let n0 = plane(&mut words, &mut b0);
    let n1 = plane(&mut words, &mut b1);
    let n2 = plane(&mut words, &mut b2);
    match (n0, n1, n2) {
        (Some(n0), Some(n1), Some(n2)) if words.text.is_empty() => {
            let b = Planes {
                p0: &b0[..n0],
                p1: &b1[..n1],
                p2: &b2[..n2],
            };
            let j = judged(way, s, z, a, b);
            answer_lines::judgement(rt, j)
        }
        _ => answer_lines::bad_line(rt),
    }
}
