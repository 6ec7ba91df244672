// A sample that runs evenly with a whole number: one multiplication and a shift.
ghost use Rattle.std.specs.Prelude.{◌≡◌, ◌*◌};
ghost use Rattle.light.specs.Scaled.{Fits, scaled_sample};
ghost use Rattle.runs.specs.Light.{Weighs};

use runs::mix::Mix;

// What is rounded to a sample of a run, in parts of 2^(32 + shift), lifted above zero.
#[derive(Clone, Copy)]
pub struct Scaled {
    pub factor: u32,
    pub base: u64,
    pub shift: u32,
    pub under: u16,
    pub top: u16,
}

// The weights, and the numbers of the three planes, each with room for every light up to the largest.
#[derive(Clone, Copy)]
pub struct Light {
    pub mix: Mix,
    pub luma: Scaled,
    pub blue: Scaled,
    pub red: Scaled,
    pub ghost weighs: { Weighs mix },
    pub ghost luma_fits: { Fits luma mix.bias },
    pub ghost blue_fits: { Fits blue (2 * mix.bias) },
    pub ghost red_fits: { Fits red (2 * mix.bias) },
}

// The sample at n.
pub fn sample(by: Scaled, n: u32) -> u16
    requires { Fits by n }
    ensures { result ≡ scaled_sample by n }
{
    let high = (((by.factor as u64) * (n as u64) + by.base) >> 32) as u32;
    let whole = (high >> by.shift) as u16;
    rounding::narrow::clip_lowered(whole, by.under, by.top)
}
