// Whole frames, either way, and the image check. Any sizes, strides and plane lengths may be handed in; every element of the output planes is set by every call.
// The planes stay parameters of their own: the theorems on each call (proofs/Calls.antt) name them one by one.
ghost use Rattle.std.specs.Prelude.{◌≡◌, length};
ghost use Rattle.setting.specs.declared.Way.TheVariants.{Forward, Reverse};
ghost use Rattle.rows.specs.Paint.{input_picture, output_layout};
ghost use Rattle.frame.specs.Frame.{FrameAfter};
ghost use Rattle.image_check.specs.Image.{image_answer};
ghost use Rattle.planes.specs.Picture.{picture};

use planes::picture::Picture;
use refusal::{Place, Refusal};
use rows::paint::Size;
use setting::{Setting, Way};

// R, G, B to Y, Cb, Cr. Refusals 12, 1 to 7, 8, 9 on all six planes, then 10.
pub fn forward_frame(
    s: Setting,
    size: Size,
    r: &[u16],
    g: &[u16],
    b: &[u16],
    y: &mut [u16],
    cb: &mut [u16],
    cr: &mut [u16],
) -> Result<(), Refusal>
    ensures { FrameAfter Forward s (input_picture size r.now g.now b.now)
        (output_layout size (length y.old) (length cb.old) (length cr.old))
        result y.new cb.new cr.new }
{
    frame::convert_frame(
        Way::Forward,
        s,
        size.input(r, g, b),
        size.output_stride,
        y,
        cb,
        cr,
    )
}

// Y, Cb, Cr to R, G, B. Refusals 12, 1 to 7, 8, 9 on all six planes, then 10.
pub fn reverse_frame(
    s: Setting,
    size: Size,
    y: &[u16],
    cb: &[u16],
    cr: &[u16],
    r: &mut [u16],
    g: &mut [u16],
    b: &mut [u16],
) -> Result<(), Refusal>
    ensures { FrameAfter Reverse s (input_picture size y.now cb.now cr.now)
        (output_layout size (length r.old) (length g.old) (length b.old))
        result r.new g.new b.new }
{
    frame::convert_frame(
        Way::Reverse,
        s,
        size.input(y, cb, cr),
        size.output_stride,
        r,
        g,
        b,
    )
}

// The first pixel of a picture of Y, Cb, Cr that comes from no RGB pixel within depth, if there is one. Refusals 12, 1 to 7, 11,
// then 8, 9 and 10 on that one side.
pub fn image_check(
    s: Setting,
    width: usize,
    height: usize,
    stride: usize,
    y: &[u16],
    cb: &[u16],
    cr: &[u16],
) -> Result<Option<Place>, Refusal>
    ensures { result ≡ image_answer s (picture width height stride y.now cb.now cr.now) }
{
    image_check::image_check(s, Picture::of(width, height, stride, y, cb, cr))
}
