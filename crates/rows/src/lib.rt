// A row of pixels, converted by a plan for many. The plan is looked at once, and each kind of numbers has a step of its own.
#![tactic(auto)]

pub mod paint;
mod word_rows;

ghost use Rattle.planes.specs.Three.{three, held};
ghost use Rattle.row_plan.specs.RowPlan.{row_planned, RowRoomy, RowTakes};
ghost use Rattle.convert.specs.Row.{OneWidth, EveryOf, ConvertedRows};

use convert::each::each_pixel;
use planes::three::Planes;
use row_plan::RowPlan;

pub fn convert_row(plan: RowPlan, a: Planes<'_>, b0: &mut [u16], b1: &mut [u16], b2: &mut [u16])
    requires row_roomy { RowRoomy plan }
    requires one_width { OneWidth (held a) (three b0.old b1.old b2.old) }
    requires every_of { EveryOf (RowTakes plan) (held a) }
    ensures { ConvertedRows (row_planned plan) (held a.entry) (three b0.new b1.new b2.new) }
{
    match plan {
        RowPlan::Plan(by_pixel) => convert::row::convert_row(by_pixel, a, b0, b1, b2),
        // The three samples of a pixel share a sum.
        RowPlan::Quotients(by) => each_pixel(move |p| quotients::pixel_of(by, p), a, b0, b1, b2),
        RowPlan::Light(by) => each_pixel(move |p| light::pixel_of(by, p), a, b0, b1, b2),
        RowPlan::Words(words) => word_rows::by_words(words, a, b0, b1, b2),
    }
}
