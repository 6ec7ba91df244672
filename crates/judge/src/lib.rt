// A claimed picture, judged: is each of its pixels the one that the box's own conversion of the source gives?
#![tactic(auto)]

mod picture;
mod run;

ghost use Rattle.std.specs.Prelude.{◌≡◌};
ghost use Rattle.planes.specs.Picture.{layout_of, PictureFits, RoomFor};
ghost use Rattle.planes.specs.Shown.{shown};
ghost use Rattle.setting.specs.Ready.{Ready};
ghost use Rattle.judge.specs.Judge.{verdict, judgement, JudgedIf};

use crate::picture::Told;
use planes::picture::Picture;
use refusal::{Place, Refusal};
use setting::admission::Served;
use setting::{Call, Setting, Way};

// How a claimed picture differs: first at a place of plane 0, and at so many pixels.
#[derive(Clone, Copy)]
pub struct Difference {
    pub first: Place,
    pub count: u64,
}

fn verdict(first: Option<Place>, wrong: u64) -> Option<Difference>
    ensures { result ≡ verdict first wrong }
{
    let first = first?;
    Some(Difference {
        first,
        count: wrong,
    })
}

// What is served, judged, if every sample of the source is within its depth: rows are tested as they are judged, so that each is read once from far
// away.
fn judged(way: Way, served: Served, a: Picture<'_>, b: Picture<'_>) -> Option<Told>
    requires ready { Ready served }
    requires fits { PictureFits (shown a) }
    requires room { RoomFor (shown a) (layout_of (shown b)) }
    ensures { JudgedIf result way served (shown a.entry) (shown b.entry) }
{
    let tops = served.depths.tops(setting::reads(Call::Convert(way)));
    let plan = row_plan::plan_rows(way, served);
    picture::tell(plan, tops, a, b)
}

// How the claimed picture b differs from the conversion of a, if it does. Both are read by a's width and height: of b its stride and its planes count.
pub fn judge_frame(
    way: Way,
    s: Setting,
    a: Picture<'_>,
    b: Picture<'_>,
) -> Result<Option<Difference>, Refusal>
    ensures { result ≡ judgement way s (shown a.entry) (shown b.entry) }
{
    let call = Call::Convert(way);
    let claimed = b.layout();
    let served = admit::admit_sizes(call, s, a.width, a.height, a.layout(), claimed)?;
    if let Some(told) = judged(way, served, a, b) {
        return Ok(verdict(told.first, told.wrong));
    }
    admit::admit_picture(call, s, a, claimed)?;
    // never: a sample is beyond its depth
    Ok(None)
}
