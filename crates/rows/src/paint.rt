// One row of a picture, tested and painted into its place: what frames and judgements have in common.
ghost use Rattle.std.specs.Prelude.{◌≡◌, ◌+◌};
ghost use Rattle.planes.specs.Three.{three, held, LongThree};
ghost use Rattle.planes.specs.Shown.{shown};
ghost use Rattle.scan.specs.First.{Tells};
ghost use Rattle.row_plan.specs.RowPlan.{row_planned, RowRoomy};
ghost use Rattle.rows.specs.Paint.{input_picture, output_picture, FineParts, RowsPutIf, TakesUpTo};

use planes::picture::Picture;
use planes::three::Planes;
use row_plan::RowPlan;
use sample::Pixel;

// The sizes of a picture, and the strides of the planes that are read and of those that are written.
#[derive(Clone, Copy)]
pub struct Size {
    pub width: usize,
    pub height: usize,
    pub input_stride: usize,
    pub output_stride: usize,
}

impl Size {
    // The picture that is read.
    pub fn input<'a>(self, p0: &'a [u16], p1: &'a [u16], p2: &'a [u16]) -> Picture<'a>
        ensures { shown result ≡ input_picture self p0.now p1.now p2.now }
    {
        Picture::of(self.width, self.height, self.input_stride, p0, p1, p2)
    }

    // The one in the planes that are claimed to be its conversion.
    pub fn output<'a>(self, p0: &'a [u16], p1: &'a [u16], p2: &'a [u16]) -> Picture<'a>
        ensures { shown result ≡ output_picture self p0.now p1.now p2.now }
    {
        Picture::of(self.width, self.height, self.output_stride, p0, p1, p2)
    }
}

// Yes exactly if none of the n samples from index `from` on is above its top, in any of the three planes.
fn row_fine(tops: Pixel, from: usize, n: usize, a: Planes<'_>) -> bool
    requires { LongThree (from + n) (held a) }
    ensures { Tells result (FineParts tops from n (held a.entry)) }
{
    scan::runs_fine(tops, from, n, a)
}

// One row, from index `from` of the planes that are read to index `to` of those that are written.
pub fn paint_row(
    plan: RowPlan,
    tops: Pixel,
    width: usize,
    from: usize,
    to: usize,
    a: Planes<'_>,
    b0: &mut [u16],
    b1: &mut [u16],
    b2: &mut [u16],
) -> bool
    requires row_roomy { RowRoomy plan }
    requires takes_up_to { TakesUpTo tops plan }
    requires long { LongThree (from + width) (held a) }
    requires long_2 { LongThree (to + width) (three b0.old b1.old b2.old) }
    ensures { RowsPutIf result tops (row_planned plan) from to width (held a.entry)
        (three b0.old b1.old b2.old) (three b0.new b1.new b2.new) }
{
    if !row_fine(tops, from, width, a) {
        return false;
    }
    let end = to + width;
    crate::convert_row(
        plan,
        a.part(from, width),
        &mut b0[to..end],
        &mut b1[to..end],
        &mut b2[to..end],
    );
    true
}
