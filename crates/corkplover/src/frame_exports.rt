// The calls on whole frames for C and for every language that can call C. A slice is a pointer and then a length.
// The crate corkplover_c exports them.
ghost use Rattle.std.specs.Prelude.{◌≡◌};
ghost use Rattle.setting.specs.declared.Way.TheVariants.{Forward, Reverse};
ghost use Rattle.image_check.specs.Image.{image_answer};
ghost use Rattle.planes.specs.Picture.{picture};
ghost use Rattle.corkplover.specs.Packing.{setting_in, sizes, packed_image};
ghost use Rattle.corkplover.specs.After.{FrameExportAfter};

use crate::packing::{setting_in, size_of};
use crate::{frames, packing};
use setting::Way;

// Planes a to planes b, by the way that is asked for.
fn leave_frame(
    way: Way,
    setting: u64,
    width: usize,
    height: usize,
    sourcestride: usize,
    outputstride: usize,
    a0: &[u16],
    a1: &[u16],
    a2: &[u16],
    b0: &mut [u16],
    b1: &mut [u16],
    b2: &mut [u16],
) -> u64
    ensures { FrameExportAfter way (setting_in setting) (sizes width height sourcestride outputstride)
        a0.now a1.now a2.now b0.old b1.old b2.old
        result b0.new b1.new b2.new }
{
    let s = setting_in(setting);
    let size = size_of(width, height, sourcestride, outputstride);
    packing::pack_done(frame::convert_frame(
        way,
        s,
        size.input(a0, a1, a2),
        size.output_stride,
        b0,
        b1,
        b2,
    ))
}

pub fn corkplover_forward_frame(
    setting: u64,
    width: usize,
    height: usize,
    sourcestride: usize,
    outputstride: usize,
    r: &[u16],
    g: &[u16],
    b: &[u16],
    y: &mut [u16],
    cb: &mut [u16],
    cr: &mut [u16],
) -> u64
    ensures { FrameExportAfter Forward (setting_in setting) (sizes width height sourcestride outputstride)
        r.now g.now b.now y.old cb.old cr.old
        result y.new cb.new cr.new }
{
    leave_frame(
        Way::Forward,
        setting,
        width,
        height,
        sourcestride,
        outputstride,
        r,
        g,
        b,
        y,
        cb,
        cr,
    )
}

pub fn corkplover_reverse_frame(
    setting: u64,
    width: usize,
    height: usize,
    sourcestride: usize,
    outputstride: usize,
    y: &[u16],
    cb: &[u16],
    cr: &[u16],
    r: &mut [u16],
    g: &mut [u16],
    b: &mut [u16],
) -> u64
    ensures { FrameExportAfter Reverse (setting_in setting) (sizes width height sourcestride outputstride)
        y.now cb.now cr.now r.old g.old b.old
        result r.new g.new b.new }
{
    leave_frame(
        Way::Reverse,
        setting,
        width,
        height,
        sourcestride,
        outputstride,
        y,
        cb,
        cr,
        r,
        g,
        b,
    )
}

pub fn corkplover_image_check(
    setting: u64,
    width: usize,
    height: usize,
    stride: usize,
    y: &[u16],
    cb: &[u16],
    cr: &[u16],
) -> u64
    ensures { result ≡ packed_image (image_answer (setting_in setting)
        (picture width height stride y.now cb.now cr.now)) }
{
    packing::pack_image(frames::image_check(setting_in(setting), width, height, stride, y, cb, cr))
}
