// The three samples of a pixel from its light, where each is a whole number over another: both sides full, at one depth. The factor alone then makes
// a sample exact, with whole parts added or taken away, so that a pixel takes fewer steps than by `light`.
#![tactic(auto)]

pub mod factors;
mod numbers;
pub mod prepare;

ghost use Rattle.std.specs.Prelude.{◌≡◌, ◌-◌, ◌≤◌, ◌<◌, ◌^◌};
ghost use Rattle.sample.specs.Depth.{UpTo};
ghost use Rattle.quotients.specs.Parts.{parts};
ghost use Rattle.quotients.specs.Quotients.{nearest_sample, lowered_sample, quotients_pixel};

use factors::{Quotients, Share};
use rounding::narrow;
use runs::mix;
use sample::Pixel;

// The parts of n.
fn parts_of(factor: u32, n: u32) -> u32
    ensures value { result ≡ parts factor n }
    ensures upper_bound { result ≤ n }
{
    (((factor as u64) * (n as u64)) >> 32) as u32
}

fn nearest(factor: u32, top: u16, n: u32) -> u16
    requires n_bound { n < 2 ^ 30 - 2 ^ 15 }
    requires top_bound { top < 2 ^ 15 }
    ensures { result ≡ nearest_sample factor top n }
{
    let whole = ((parts_of(factor, n) + (1 << 14)) >> 15) as u16;
    narrow::smaller_of_small(whole, top)
}

fn lowered(by: Share, top: u16, n: u32) -> u16
    requires take_bound { by.take ≤ parts by.factor n }
    requires n_bound { n < 2 ^ 31 }
    requires top_bound { top < 2 ^ 15 }
    ensures { result ≡ lowered_sample by top n }
{
    let whole = ((parts_of(by.factor, n) - by.take) >> 16) as u16;
    narrow::smaller_of_small(whole, top)
}

// The three samples.
pub fn pixel_of(by: Quotients, p: Pixel) -> Pixel
    requires up_to { UpTo by.mix.most p }
    ensures { result ≡ quotients_pixel by p }
{
    let light = mix::light_of(by.mix, p);
    let p0 = nearest(by.luma, by.top, light);
    let p1 = lowered(by.blue, by.top, mix::away(by.mix, p.p2, light));
    let p2 = lowered(by.red, by.top, mix::away(by.mix, p.p0, light));
    Pixel { p0, p1, p2 }
}
