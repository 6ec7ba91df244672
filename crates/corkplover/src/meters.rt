// The meter: what a sample, or the three of a pixel, stands for. Refusals 12, 1 to 7, 11, then 10 with the plane's number.
ghost use Rattle.std.specs.Prelude.{◌≡◌};
ghost use Rattle.corkplover.specs.Answers.{reading, levels_answer};

use meter::{PixelLevels, SampleKind};
use refusal::Refusal;
use sample::Pixel;
use setting::{Call, Setting};

// One sample of a kind that the caller names. No other sample is tested.
pub fn meter_sample(kind: SampleKind, s: Setting, v: u16) -> Result<f32, Refusal>
    ensures { result ≡ reading kind s v }
{
    let served = admit::admit_sample(kind, s, v)?;
    let depths = served.depths;
    Ok(meter::level_of(kind, served.ycc_full, depths.luma, depths.chroma, v))
}

// The three samples of a pixel.
pub fn meter_pixel(s: Setting, p: Pixel) -> Result<PixelLevels, Refusal>
    ensures { result ≡ levels_answer s p }
{
    let served = admit::admit_pixel(Call::Meter, s, p)?;
    let depths = served.depths;
    Ok(meter::levels_of(served.ycc_full, depths.luma, depths.chroma, p))
}
