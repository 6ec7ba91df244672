// Cases on whole frames and on images, by their words from the edition on.
ghost use Rattle.std.specs.Prelude.{◌≤◌, length, IfSome};
ghost use Rattle.rows.specs.Paint.{input_picture, output_layout};
ghost use Rattle.frame.specs.Frame.{PlanesAfter, FrameAfter};

use crate::claims;
use case_words::{Picture, next_number, old_contents, picture_words, plane, size_word};
use corkplover::frames;
use planes::three::Planes;
use refusal::Refusal;
use request::form;
use rows::paint::Size;
use setting::{Setting, Way};
use std::io;
use text::reading::Words;

// The longest plane that there is room for.
pub const ROOM: usize = 20000;

// What a line asks about a frame: convert it, or judge what is claimed of it.
#[derive(Clone, Copy)]
pub enum FrameTask {
    Convert,
    Judge,
}

// What a line asks about the picture of its planes.
#[derive(Clone, Copy)]
enum PictureTask {
    Frame(FrameTask, Way, Size),
    Check,
}

fn convert(
    way: Way,
    s: Setting,
    z: Size,
    a: Planes<'_>,
    b0: &mut [u16],
    b1: &mut [u16],
    b2: &mut [u16],
) -> Result<(), Refusal>
    ensures { FrameAfter way s (input_picture z a.entry.p0.now a.entry.p1.now a.entry.p2.now)
        (output_layout z (length b0.old) (length b1.old) (length b2.old))
        result b0.new b1.new b2.new }
{
    match way {
        Way::Forward => frames::forward_frame(s, z, a.p0, a.p1, a.p2, b0, b1, b2),
        Way::Reverse => frames::reverse_frame(s, z, a.p0, a.p1, a.p2, b0, b1, b2),
    }
}

fn convert_and_say(
    rt: &impl Print,
    way: Way,
    s: Setting,
    z: Size,
    a: Planes<'_>,
    b0: &mut [u16],
    b1: &mut [u16],
    b2: &mut [u16],
) -> io::Result<()>
    ensures { PlanesAfter way s (input_picture z a.entry.p0.now a.entry.p1.now a.entry.p2.now)
        (output_layout z (length b0.old) (length b1.old) (length b2.old))
        b0.new b1.new b2.new }
{
    answer_lines::frame(rt, convert(way, s, z, a, b0, b1, b2))?;
    answer_lines::plane(rt, b0)?;
    answer_lines::plane(rt, b1)?;
    answer_lines::plane(rt, b2)
}

// The lengths of the output planes, and the first of their old contents, with which a line ends.
fn output_words(words: Words<'_>) -> Option<(usize, usize, usize, u64)>
    ensures { IfSome result (λ r. (r.0 ≤ 20000) × (r.1 ≤ 20000) × (r.2 ≤ 20000)) }
{
    let mut words = words;
    let n0 = next_number(&mut words, ROOM as u64)? as usize;
    let n1 = next_number(&mut words, ROOM as u64)? as usize;
    let n2 = next_number(&mut words, ROOM as u64)? as usize;
    let fill = next_number(&mut words, form::LARGEST_SAMPLE)?;
    if words.text.is_empty() {
        Some((n0, n1, n2, fill))
    } else {
        None
    }
}

// Output planes of the lengths that the line ends with, full of old contents.
fn convert_into(
    rt: &impl Print,
    words: Words<'_>,
    way: Way,
    s: Setting,
    z: Size,
    a: Planes<'_>,
) -> io::Result<()> {
    let Some((n0, n1, n2, fill)) = output_words(words) else {
        return answer_lines::bad_line(rt);
    };
    let mut b0 = [0u16; ROOM];
    let mut b1 = [0u16; ROOM];
    let mut b2 = [0u16; ROOM];
    old_contents(fill, &mut b0);
    old_contents(fill, &mut b1);
    old_contents(fill, &mut b2);
    convert_and_say(
        rt,
        way,
        s,
        z,
        a,
        &mut b0[..n0],
        &mut b1[..n1],
        &mut b2[..n2],
    )
}

// The image check, where the line ends with the last plane.
fn check(rt: &impl Print, words: Words<'_>, p: Picture, a: Planes<'_>) -> io::Result<()> {
    if !words.text.is_empty() {
        return answer_lines::bad_line(rt);
    }
    answer_lines::image(
        rt,
        frames::image_check(p.setting, p.width, p.height, p.stride, a.p0, a.p1, a.p2),
    )
}

// What is asked of the planes that were read; the words behind them are left.
fn on_planes(
    rt: &impl Print,
    words: Words<'_>,
    p: Picture,
    task: PictureTask,
    a: Planes<'_>,
) -> io::Result<()> {
    let s = p.setting;
    match task {
        PictureTask::Frame(FrameTask::Convert, way, z) => convert_into(rt, words, way, s, z, a),
        PictureTask::Frame(FrameTask::Judge, way, z) => claims::judge(rt, words, way, s, z, a),
        PictureTask::Check => check(rt, words, p, a),
    }
}

// Three planes, with which the words begin.
fn on_picture(rt: &impl Print, words: Words<'_>, p: Picture, task: PictureTask) -> io::Result<()> {
    let mut words = words;
    let mut a0 = [0u16; ROOM];
    let mut a1 = [0u16; ROOM];
    let mut a2 = [0u16; ROOM];
    let n0 = plane(&mut words, &mut a0);
    let n1 = plane(&mut words, &mut a1);
    let n2 = plane(&mut words, &mut a2);
    match (n0, n1, n2) {
        (Some(n0), Some(n1), Some(n2)) => {
            let a = Planes {
                p0: &a0[..n0],
                p1: &a1[..n1],
                p2: &a2[..n2],
            };
            on_planes(rt, words, p, task, a)
        }
        _ => answer_lines::bad_line(rt),
    }
}

pub fn on_frame(
    rt: &impl Print,
    words: Words<'_>,
    edition: u8,
    task: FrameTask,
    way: Way,
) -> io::Result<()> {
    let (Ok(p), Ok(output_stride)) = (picture_words(words, edition), size_word(words, 12)) else {
        return answer_lines::bad_line(rt);
    };
    let size = Size {
        width: p.width,
        height: p.height,
        input_stride: p.stride,
        output_stride,
    };
    on_picture(rt, words.skip(13), p, PictureTask::Frame(task, way, size))
}

pub fn on_image(rt: &impl Print, words: Words<'_>, edition: u8) -> io::Result<()> {
    match picture_words(words, edition) {
        Ok(p) => on_picture(rt, words.skip(12), p, PictureTask::Check),
        Err(_) => answer_lines::bad_line(rt),
    }
}
