// The factors that make a pixel's samples of its light.
ghost use Rattle.std.specs.Prelude.{◌*◌, ◌^◌, ◌≤◌, ◌<◌};
ghost use Rattle.runs.specs.Light.{Weighs};
ghost use Rattle.quotients.specs.Parts.{parts};

use runs::mix::Mix;

// A factor, and how many parts it gives too many.
#[derive(Clone, Copy)]
pub struct Share {
    pub factor: u32,
    pub take: u32,
}

// The weights, the factor of Y, those of Cb and Cr, and the largest sample of all three. There is room: no more is taken away than is there where a
// colour is furthest below the light.
#[derive(Clone, Copy)]
pub struct Quotients {
    pub mix: Mix,
    pub luma: u32,
    pub blue: Share,
    pub red: Share,
    pub top: u16,
    pub ghost weighs: { Weighs mix },
    pub ghost bias_in: { 2 * mix.bias < 2 ^ 30 },
    pub ghost top_in: { top < 2 ^ 15 },
    pub ghost blue_there: { blue.take ≤ parts blue.factor (mix.kb * mix.most) },
    pub ghost red_there: { red.take ≤ parts red.factor (mix.kr * mix.most) },
}
