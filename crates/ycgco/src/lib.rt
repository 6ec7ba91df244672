// YCgCo, one pixel at a time. Nothing is negative on the way: the middle of the chroma plane is added before anything is taken away.
#![tactic(auto)]

ghost use Rattle.std.specs.Prelude.{◌≡◌};
ghost use Rattle.sample.specs.Depth.{InsideRGB};
ghost use Rattle.ycgco.specs.YCgCo.{lossy_forward, lossy_reverse, lossless_forward, lossless_reverse, LossyDepths, LosslessDepths};

use rounding::narrow;
use sample::{Depths, Pixel, SampleDepth};

// 48 to 50
pub fn lossy_forward(d: Depths, p: Pixel) -> Pixel
    requires { LossyDepths d }
    ensures { result ≡ lossy_forward d p }
{
    let h = d.chroma.middle() as u32;
    let top = d.chroma.largest() as u32;
    let r = p.p0 as u32;
    let g = p.p1 as u32;
    let b = p.p2 as u32;
    let p0 = ((2 * g + r + b + 2) / 4) as u16;
    let p1 = rounding::round_clip(2 * g, r + b, 4, h, top);
    let p2 = rounding::round_clip(r, b, 2, h, top);
    Pixel { p0, p1, p2 }
}

// 51 to 54
pub fn lossy_reverse(d: Depths, p: Pixel) -> Pixel
    requires { LossyDepths d }
    ensures { result ≡ lossy_reverse d p }
{
    let h = d.chroma.middle() as u32;
    let top = d.rgb.largest() as u32;
    let y = p.p0 as u32;
    let cb = p.p1 as u32;
    let cr = p.p2 as u32;
    let p0 = rounding::clip_difference(y + cr, cb, top);
    let p1 = rounding::clip_difference(y + cb, h, top);
    let p2 = rounding::clip_difference(y + 2 * h, cb + cr, top);
    Pixel { p0, p1, p2 }
}

// 55 to 58
pub fn lossless_forward(d: Depths, p: Pixel) -> Pixel
    requires lossless_depths { LosslessDepths d }
    requires inside_rgb { InsideRGB d p }
    ensures { result ≡ lossless_forward d p }
{
    let h = d.chroma.middle() as u32;
    let r = p.p0 as u32;
    let g = p.p1 as u32;
    let b = p.p2 as u32;
    let cr = r + h - b;
    let t = (r + b) / 2;
    let cb = g + h - t;
    let y = (g + t) / 2;
    Pixel {
        p0: y as u16,
        p1: cb as u16,
        p2: cr as u16,
    }
}

// 59 to 62. H is even, so half of what a chroma sample and H come to is half of each.
pub fn lossless_reverse(d: Depths, p: Pixel) -> Pixel
    requires { LosslessDepths d }
    ensures { result ≡ lossless_reverse d p }
{
    let h = d.chroma.middle();
    let top = d.rgb.largest();
    let y = p.p0;
    let cb = p.p1;
    let cr = p.p2;
    let half_cb = cb / 2;
    let half_cr = cr / 2;
    let p1 = narrow::clip_moved(y, cb - half_cb, h / 2, top);
    let p2 = narrow::clip_moved(y, h, half_cb + half_cr, top);
    let p0 = narrow::clip_moved(p2, cr, h, top);
    Pixel { p0, p1, p2 }
}
