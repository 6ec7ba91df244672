// The three samples of a pixel from its light. Y runs evenly with it, and Cb and Cr with how far B and R are from it: that sum is taken once for a
// pixel, in whole numbers, and each sample costs one multiplication more and no division.
#![tactic(auto)]

mod numbers;
pub mod prepare;
pub mod scaled;

ghost use Rattle.std.specs.Prelude.{◌≡◌};
ghost use Rattle.sample.specs.Depth.{UpTo};
ghost use Rattle.light.specs.Light.{light_pixel};

use runs::mix;
use sample::Pixel;
use scaled::Light;

// The three samples.
pub fn pixel_of(by: Light, p: Pixel) -> Pixel
    requires up_to { UpTo by.mix.most p }
    ensures { result ≡ light_pixel by p }
{
    let light = mix::light_of(by.mix, p);
    let p0 = scaled::sample(by.luma, light);
    let p1 = scaled::sample(by.blue, mix::away(by.mix, p.p2, light));
    let p2 = scaled::sample(by.red, mix::away(by.mix, p.p0, light));
    Pixel { p0, p1, p2 }
}
