// The calls on whole frames, for C: each is the call of the same name in corkplover/src/frame_exports.rt, with its clauses.
ghost use Rattle.std.specs.Prelude.{◌≡◌};
ghost use Rattle.setting.specs.declared.Way.TheVariants.{Forward, Reverse};
ghost use Rattle.image_check.specs.Image.{image_answer};
ghost use Rattle.planes.specs.Picture.{picture};
ghost use Rattle.corkplover.specs.Packing.{setting_in, sizes, packed_image};
ghost use Rattle.corkplover.specs.After.{FrameExportAfter};

use corkplover::frame_exports;

// A frame from R, G, B, written into three planes.
#[unsafe(no_mangle)]
pub extern "C" fn corkplover_forward_frame(
    setting: u64,
    width: usize,
    height: usize,
    sourcestride: usize,
    outputstride: usize,
    r: &[u16],
    g: &[u16],
    b: &[u16],
    y: &mut [u16],
    cb: &mut [u16],
    cr: &mut [u16],
) -> u64
    ensures { FrameExportAfter Forward (setting_in setting) (sizes width height sourcestride outputstride)
        r.now g.now b.now y.old cb.old cr.old
        result y.new cb.new cr.new }
{
    frame_exports::corkplover_forward_frame(
        setting,
        width,
        height,
        sourcestride,
        outputstride,
        r,
        g,
        b,
        y,
        cb,
        cr,
    )
}

// A frame back to R, G, B, written into three planes.
#[unsafe(no_mangle)]
pub extern "C" fn corkplover_reverse_frame(
    setting: u64,
    width: usize,
    height: usize,
    sourcestride: usize,
    outputstride: usize,
    y: &[u16],
    cb: &[u16],
    cr: &[u16],
    r: &mut [u16],
    g: &mut [u16],
    b: &mut [u16],
) -> u64
    ensures { FrameExportAfter Reverse (setting_in setting) (sizes width height sourcestride outputstride)
        y.now cb.now cr.now r.old g.old b.old
        result r.new g.new b.new }
{
    frame_exports::corkplover_reverse_frame(
        setting,
        width,
        height,
        sourcestride,
        outputstride,
        y,
        cb,
        cr,
        r,
        g,
        b,
    )
}

// Whether a picture has an RGB source, and else where it has none.
#[unsafe(no_mangle)]
pub extern "C" fn corkplover_image_check(
    setting: u64,
    width: usize,
    height: usize,
    stride: usize,
    y: &[u16],
    cb: &[u16],
    cr: &[u16],
) -> u64
    ensures { result ≡ packed_image (image_answer (setting_in setting)
        (picture width height stride y.now cb.now cr.now)) }
{
    frame_exports::corkplover_image_check(setting, width, height, stride, y, cb, cr)
}
