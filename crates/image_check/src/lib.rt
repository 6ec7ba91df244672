// The image check: does a picture of Y, Cb, Cr come from one of R, G, B?
#![tactic(auto)]

mod passing;

ghost use Rattle.std.specs.Prelude.{◌≡◌};
ghost use Rattle.planes.specs.Picture.{EveryPixel, PictureFits};
ghost use Rattle.planes.specs.Shown.{shown};
ghost use Rattle.plan.specs.Plan.{planned, Roomy, Takes};
ghost use Rattle.plan.specs.Source.{comes_back};
ghost use Rattle.image_check.specs.Image.{first_failing, image_answer};

use plan::Plan;
use planes::picture::Picture;
use planes::size::row_start;
use refusal::{Place, Refusal};
use setting::{Call, Setting, Way};

// The first pixel that does not come back the same, by row and then by column. A picture, or a row, all of whose pixels do is passed
// over at once. A call of its own, so that the stack doesn't hold what admission takes and what the walk takes at one time.
#[inline(never)]
fn first_sourceless(back: Plan, forth: Plan, a: Picture<'_>) -> Option<Place>
    requires roomy { Roomy back × Roomy forth }
    requires fits { PictureFits (shown a) }
    requires every_pixel { EveryPixel (Takes back) (shown a) }
    requires every_pixel_2 { EveryPixel (λ p. Takes forth (planned back p)) (shown a) }
    ensures { result ≡ first_failing (comes_back (planned back) (planned forth)) (shown a.entry) }
{
    if passing::whole_comes_back(back, forth, a) {
        return None;
    }
    let mut found = None;
    // A loop in a loop: the first pixel is named by row and then by column, and the search ends there, by the label.
    'rows: for j in 0..a.height {
        let start = row_start(j, a.height, a.stride);
        if passing::run_comes_back(back, forth, start, a.width, a.planes) {
            continue;
        }
        for i in 0..a.width {
            if !convert::comes_back(back, forth, a.pixel(j, i)) {
                found = Some(Place::of_pixel(j as u16, i as u16));
                break 'rows;
            }
        }
    }
    found
}

// The rules on a picture of this one side, and then the first pixel without a source, by its row and column in a place of plane 0, if there is one.
pub fn image_check(s: Setting, a: Picture<'_>) -> Result<Option<Place>, Refusal>
    ensures { result ≡ image_answer s (shown a.entry) }
{
    let served = admit::admit_picture(Call::ImageCheck, s, a, a.layout())?;
    let back = plan::plan_of(Way::Reverse, served);
    let forth = plan::plan_of(Way::Forward, served);
    Ok(first_sourceless(back, forth, a))
}
