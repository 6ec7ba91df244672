// Pixels and rows of pixels, converted by a plan.
#![tactic(auto)]

pub mod back;
pub mod each;
mod line_rows;
pub mod row;

ghost use Rattle.std.specs.Prelude.{◌≡◌};
ghost use Rattle.plan.specs.Plan.{planned, Roomy, Takes};
ghost use Rattle.plan.specs.Source.{comes_back};

use plan::Plan;
use sample::Pixel;

// A pixel, converted.
pub fn pixel(plan: Plan, p: Pixel) -> Pixel
    requires roomy { Roomy plan }
    requires takes { Takes plan p }
    ensures { result ≡ planned plan p }
{
    match plan {
        Plan::PlacesForward => Pixel {
            p0: p.p1,
            p1: p.p2,
            p2: p.p0,
        },
        Plan::PlacesReverse => Pixel {
            p0: p.p2,
            p1: p.p0,
            p2: p.p1,
        },
        Plan::LossyForward(d) => ycgco::lossy_forward(d, p),
        Plan::LossyReverse(d) => ycgco::lossy_reverse(d, p),
        Plan::LosslessForward(d) => ycgco::lossless_forward(d, p),
        Plan::LosslessReverse(d) => ycgco::lossless_reverse(d, p),
        Plan::Lines(lines) => levels::by_lines::pixel_of(lines, p),
    }
}

// Whether a pixel is the same when it was converted back and forth.
pub fn comes_back(back: Plan, forth: Plan, p: Pixel) -> bool
    requires roomy { Roomy back }
    requires roomy_2 { Roomy forth }
    requires takes { Takes back p }
    requires takes_2 { Takes forth (planned back p) }
    ensures { result ≡ comes_back (planned back) (planned forth) p }
{
    let source = pixel(back, p);
    let again = pixel(forth, source);
    again == p
}
