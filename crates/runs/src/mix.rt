// The light of a pixel.
ghost use Rattle.std.specs.Prelude.{◌≡◌, ◌+◌, ◌-◌, ◌*◌, ◌≤◌};
ghost use Rattle.sample.specs.Depth.{UpTo};
ghost use Rattle.runs.specs.Found.{Mixes};
ghost use Rattle.runs.specs.Light.{light_by, mix_of, Weighs};

use crate::Runs;
use sample::Pixel;

// The weights of R, G and B and their sum, and the largest light of samples up to `most`.
#[derive(Clone, Copy)]
pub struct Mix {
    pub kr: u16,
    pub kg: u16,
    pub kb: u16,
    pub all: u16,
    pub most: u16,
    pub bias: u32,
}

// The weights that were found, each taken `scale` times.
pub fn mix_of(r: Runs, scale: u64) -> Mix
    requires { Mixes r scale }
    ensures { result ≡ mix_of r scale }
{
    let kr = (scale * r.kr) as u16;
    let kg = (scale * r.kg) as u16;
    let kb = (scale * r.kb) as u16;
    let all = (scale * r.all) as u16;
    let bias = (scale * r.bias) as u32;
    Mix {
        kr,
        kg,
        kb,
        all,
        most: r.most,
        bias,
    }
}

// R, G and B in one sum.
pub fn light_of(by: Mix, p: Pixel) -> u32
    requires weighs { Weighs by }
    requires up_to { UpTo by.most p }
    ensures value { result ≡ light_by by.kr by.kg by.kb p }
    ensures upper_bound { result ≤ by.bias }
{
    (by.kr as u32) * (p.p0 as u32) + (by.kg as u32) * (p.p1 as u32) + (by.kb as u32) * (p.p2 as u32)
}

// How far a colour is from the light, with the largest light added. What the light leaves of that is the same for two colours.
pub fn away(by: Mix, v: u16, light: u32) -> u32
    requires weighs { Weighs by }
    requires v_le_most { v ≤ by.most }
    requires light_le_bias { light ≤ by.bias }
    ensures value { result ≡ by.all * v + by.bias - light }
    ensures upper_bound { result ≤ 2 * by.bias }
{
    (by.all as u32) * (v as u32) + (by.bias - light)
}
