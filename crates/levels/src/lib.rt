// The level matrices, prepared once for a setting. Equations over exact fractions are the definition. The code has one form for every
// sample: three signed weights over one denominator, one Round, one Clip.
#![tactic(auto)]

pub mod by_lines;
pub mod equations;
pub mod lines;

ghost use Rattle.std.specs.Prelude.{◌≡◌};
ghost use Rattle.levels.specs.Conversion.{EquationsFit, LevelDepths};
ghost use Rattle.levels.specs.Lines.{forward_lines, reverse_lines};

use equations::Equations;
use lines::Lines;
use sample::{Depths, SampleDepth};

// The largest sample that a level matrix reads.
pub const MOST_SAMPLE: u16 = (1 << sample::MOST_LEVEL_DEPTH) - 1;

// The depths of a setting, and which of its sides are full range.
#[derive(Clone, Copy)]
pub struct LevelSetting {
    pub depths: Depths,
    pub rgb_full: bool,
    pub ycc_full: bool,
}

// R, G, B to Y, Cb, Cr, prepared.
pub fn forward_lines(e: Equations, s: LevelSetting) -> Lines
    requires equations_fit { EquationsFit e }
    requires level_depths { LevelDepths s }
    ensures { result ≡ forward_lines e s }
{
    let d = s.depths;
    let from = lines::readers_of_rgb(scale::rgb_scale(s.rgb_full, d.rgb));
    let light = lines::writer_of(
        s.ycc_full,
        scale::luma_scale(s.ycc_full, d.luma),
        d.luma.largest(),
    );
    let colour = lines::writer_of(
        s.ycc_full,
        scale::chroma_scale(s.ycc_full, d.chroma),
        d.chroma.largest(),
    );
    lines::lines_of(e, from, light, colour)
}

// Y, Cb, Cr to R, G, B, prepared.
pub fn reverse_lines(e: Equations, s: LevelSetting) -> Lines
    requires equations_fit { EquationsFit e }
    requires level_depths { LevelDepths s }
    ensures { result ≡ reverse_lines e s }
{
    let d = s.depths;
    let of_luma = scale::luma_scale(s.ycc_full, d.luma);
    let of_chroma = scale::chroma_scale(s.ycc_full, d.chroma);
    let from = lines::readers_of_ycc(of_luma, of_chroma);
    let to = lines::writer_of(
        s.rgb_full,
        scale::rgb_scale(s.rgb_full, d.rgb),
        d.rgb.largest(),
    );
    lines::lines_of(e, from, to, to)
}
