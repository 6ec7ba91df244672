// Whole frames: the refusals first, and then either every row or zeros everywhere.
#![tactic(auto)]

mod picture;

ghost use Rattle.std.specs.Prelude.{◌≡◌, length};
ghost use Rattle.planes.specs.Picture.{PictureFits, RoomFor};
ghost use Rattle.planes.specs.Shown.{shown};
ghost use Rattle.planes.specs.Sizes.{layout};
ghost use Rattle.setting.specs.Ready.{Ready};
ghost use Rattle.frame.specs.Frame.{AttemptAfter, FrameAfter, ConvertedIf};

use planes::picture::Picture;
use planes::size::Layout;
use refusal::Refusal;
use setting::admission::Served;
use setting::{Call, Setting, Way};

// What is served, painted, if every sample is within its depth: rows are tested as they are painted, so that each is read once from far away. After a
// no the planes hold whatever they hold.
fn painted(
    way: Way,
    served: Served,
    a: Picture<'_>,
    output_stride: usize,
    b0: &mut [u16],
    b1: &mut [u16],
    b2: &mut [u16],
) -> bool
    requires ready { Ready served }
    requires fits { PictureFits (shown a) }
    requires room { RoomFor (shown a) (layout output_stride (length b0.old) (length b1.old) (length b2.old)) }
    ensures { ConvertedIf result way served (shown a.entry)
        (layout output_stride (length b0.old) (length b1.old) (length b2.old))
        b0.new b1.new b2.new }
{
    let tops = served.depths.tops(setting::reads(Call::Convert(way)));
    let plan = row_plan::plan_rows(way, served);
    picture::paint(plan, tops, a, output_stride, b0, b1, b2)
}

// A frame, converted, where nothing refuses it. After a refusal the planes hold whatever they hold.
fn attempt(
    way: Way,
    s: Setting,
    a: Picture<'_>,
    output_stride: usize,
    b0: &mut [u16],
    b1: &mut [u16],
    b2: &mut [u16],
) -> Result<(), Refusal>
    ensures { AttemptAfter way s (shown a.entry)
        (layout output_stride (length b0.old) (length b1.old) (length b2.old))
        result b0.new b1.new b2.new }
{
    let call = Call::Convert(way);
    let output = Layout::of(output_stride, b0, b1, b2);
    let served = admit::admit_sizes(call, s, a.width, a.height, a.layout(), output)?;
    if painted(way, served, a, output_stride, b0, b1, b2) {
        return Ok(());
    }
    admit::admit_picture(call, s, a, output)?;
    // never: a sample is beyond its depth
    Ok(())
}

// A frame, converted. Whatever is answered, every element of the three output planes is set: to zero by a refusal.
pub fn convert_frame(
    way: Way,
    s: Setting,
    a: Picture<'_>,
    output_stride: usize,
    b0: &mut [u16],
    b1: &mut [u16],
    b2: &mut [u16],
) -> Result<(), Refusal>
    ensures { FrameAfter way s (shown a.entry)
        (layout output_stride (length b0.old) (length b1.old) (length b2.old))
        result b0.new b1.new b2.new }
{
    let done = attempt(way, s, a, output_stride, b0, b1, b2);
    if done.is_err() {
        planes::fill::zero_three(b0, b1, b2);
    }
    done
}
