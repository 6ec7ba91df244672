// A row of pixels, converted. The plan is looked at once, and each kind of formulas has a step of its own.
ghost use Rattle.planes.specs.Three.{three, held};
ghost use Rattle.plan.specs.Plan.{planned, Roomy, Takes};
ghost use Rattle.convert.specs.Row.{OneWidth, EveryOf, ConvertedRows};

use crate::each::{copy_three, each_pixel};
use crate::line_rows;
use plan::Plan;
use planes::three::Planes;

pub fn convert_row(plan: Plan, a: Planes<'_>, b0: &mut [u16], b1: &mut [u16], b2: &mut [u16])
    requires roomy { Roomy plan }
    requires one_width { OneWidth (held a) (three b0.old b1.old b2.old) }
    requires every_of { EveryOf (Takes plan) (held a) }
    ensures { ConvertedRows (planned plan) (held a.entry) (three b0.new b1.new b2.new) }
{
    match plan {
        Plan::PlacesForward => {
            let moved = Planes {
                p0: a.p1,
                p1: a.p2,
                p2: a.p0,
            };
            copy_three(moved, b0, b1, b2)
        }
        Plan::PlacesReverse => {
            let moved = Planes {
                p0: a.p2,
                p1: a.p0,
                p2: a.p1,
            };
            copy_three(moved, b0, b1, b2)
        }
        Plan::LossyForward(d) => each_pixel(move |p| ycgco::lossy_forward(d, p), a, b0, b1, b2),
        Plan::LossyReverse(d) => each_pixel(move |p| ycgco::lossy_reverse(d, p), a, b0, b1, b2),
        Plan::LosslessForward(d) => each_pixel(
            move |p| ycgco::lossless_forward(d, p),
            a,
            b0,
            b1,
            b2,
        ),
        Plan::LosslessReverse(d) => each_pixel(
            move |p| ycgco::lossless_reverse(d, p),
            a,
            b0,
            b1,
            b2,
        ),
        Plan::Lines(lines) => line_rows::by_lines(lines, a, b0, b1, b2),
    }
}
