// What an accepted conversion writes: every row into its own part of each plane, and zeros into the parts that the rows leave. Each row is
// tested while it is at hand: a sample above its top ends the painting, and the answer is no.
ghost use Rattle.std.specs.Prelude.{◌≡◌, length};
ghost use Rattle.planes.specs.Picture.{PictureFits, RoomFor};
ghost use Rattle.planes.specs.Shown.{shown};
ghost use Rattle.planes.specs.Sizes.{layout};
ghost use Rattle.row_plan.specs.RowPlan.{row_planned, RowRoomy};
ghost use Rattle.rows.specs.Paint.{TakesUpTo};
ghost use Rattle.frame.specs.Frame.{PaintedIf};

use planes::picture::Picture;
use planes::size::{needed, row_start};
use row_plan::RowPlan;
use rows::paint::paint_row;
use sample::Pixel;

// Row by row, with zeros between them and after them.
fn paint_rows(
    plan: RowPlan,
    tops: Pixel,
    a: Picture<'_>,
    output_stride: usize,
    b0: &mut [u16],
    b1: &mut [u16],
    b2: &mut [u16],
) -> bool
    requires row_roomy { RowRoomy plan }
    requires takes_up_to { TakesUpTo tops plan }
    requires fits { PictureFits (shown a) }
    requires room { RoomFor (shown a) (layout output_stride (length b0.old) (length b1.old) (length b2.old)) }
    ensures { PaintedIf result tops (row_planned plan) (shown a.entry)
        (layout output_stride (length b0.old) (length b1.old) (length b2.old))
        b0.new b1.new b2.new }
{
    let mut done = 0;
    for j in 0..a.height {
        let from = row_start(j, a.height, a.stride);
        let to = row_start(j, a.height, output_stride);
        planes::fill::zero_gap(b0, b1, b2, done, to);
        if !paint_row(plan, tops, a.width, from, to, a.planes, b0, b1, b2) {
            return false;
        }
        done = to + a.width;
    }
    planes::fill::zero_rest(b0, b1, b2, done);
    true
}

// All rows as one, where nothing lies between them on either side, with zeros after them.
fn paint_whole(
    plan: RowPlan,
    tops: Pixel,
    a: Picture<'_>,
    output_stride: usize,
    b0: &mut [u16],
    b1: &mut [u16],
    b2: &mut [u16],
) -> bool
    requires row_roomy { RowRoomy plan }
    requires takes_up_to { TakesUpTo tops plan }
    requires fits { PictureFits (shown a) }
    requires room { RoomFor (shown a) (layout output_stride (length b0.old) (length b1.old) (length b2.old)) }
    requires a_close { a.stride ≡ a.width }
    requires b_close { output_stride ≡ a.width }
    ensures { PaintedIf result tops (row_planned plan) (shown a.entry)
        (layout output_stride (length b0.old) (length b1.old) (length b2.old))
        b0.new b1.new b2.new }
{
    let n = needed(a.width, a.height, a.stride);
    if !paint_row(plan, tops, n, 0, 0, a.planes, b0, b1, b2) {
        return false;
    }
    planes::fill::zero_rest(b0, b1, b2, n);
    true
}

// Every element of the output planes: the rows of the picture, and zeros between them and after them.
pub fn paint(
    plan: RowPlan,
    tops: Pixel,
    a: Picture<'_>,
    output_stride: usize,
    b0: &mut [u16],
    b1: &mut [u16],
    b2: &mut [u16],
) -> bool
    requires row_roomy { RowRoomy plan }
    requires takes_up_to { TakesUpTo tops plan }
    requires fits { PictureFits (shown a) }
    requires room { RoomFor (shown a) (layout output_stride (length b0.old) (length b1.old) (length b2.old)) }
    ensures { PaintedIf result tops (row_planned plan) (shown a.entry)
        (layout output_stride (length b0.old) (length b1.old) (length b2.old))
        b0.new b1.new b2.new }
{
    if a.stride == a.width && output_stride == a.width {
        return paint_whole(plan, tops, a, output_stride, b0, b1, b2);
    }
    paint_rows(plan, tops, a, output_stride, b0, b1, b2)
}
