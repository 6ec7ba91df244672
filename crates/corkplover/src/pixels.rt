// One pixel: converted either way, or asked for its source. Any setting and any three samples may be handed in.
ghost use Rattle.std.specs.Prelude.{◌≡◌};
ghost use Rattle.setting.specs.declared.Way.TheVariants.{Forward, Reverse};
ghost use Rattle.corkplover.specs.Answers.{pixel_answer, source_answer};

use refusal::Refusal;
use sample::Pixel;
use setting::{Call, Setting, Way};

fn convert_pixel(way: Way, s: Setting, p: Pixel) -> Result<Pixel, Refusal>
    ensures { result ≡ pixel_answer way s p }
{
    let served = admit::admit_pixel(Call::Convert(way), s, p)?;
    let plan = plan::plan_of(way, served);
    Ok(convert::pixel(plan, p))
}

// R, G, B to Y, Cb, Cr. Refusals 12, 1 to 7, then 10.
pub fn forward_pixel(s: Setting, p: Pixel) -> Result<Pixel, Refusal>
    ensures { result ≡ pixel_answer Forward s p }
{
    convert_pixel(Way::Forward, s, p)
}

// Y, Cb, Cr to R, G, B. Refusals 12, 1 to 7, then 10.
pub fn reverse_pixel(s: Setting, p: Pixel) -> Result<Pixel, Refusal>
    ensures { result ≡ pixel_answer Reverse s p }
{
    convert_pixel(Way::Reverse, s, p)
}

// Whether some RGB pixel within depth converts to a pixel of Y, Cb, Cr. Refusals 12, 1 to 7, 11, then 10.
pub fn source_pixel(s: Setting, p: Pixel) -> Result<bool, Refusal>
    ensures { result ≡ source_answer s p }
{
    let served = admit::admit_pixel(Call::ImageCheck, s, p)?;
    let back = plan::plan_of(Way::Reverse, served);
    let forth = plan::plan_of(Way::Forward, served);
    Ok(convert::comes_back(back, forth, p))
}
