// The meter's levels. A level is the one float quotient of a numerator and a denominator that are both exact as floats.
#![tactic(auto)]

ghost use Rattle.std.specs.Prelude.{◌≡◌};
ghost use Rattle.sample.specs.Depth.{Depth};
ghost use Rattle.meter.specs.Level.{float_quotient, plane_number, scale_of, level_of, levels_of, Measurable};

use sample::{ChromaDepth, LumaDepth, Pixel};
use scale::Scale;

// The levels of one pixel, which travel together.
#[derive(Clone, Copy)]
pub struct PixelLevels {
    pub y: f32,
    pub cb: f32,
    pub cr: f32,
}

#[derive(Clone, Copy)]
pub enum SampleKind {
    Y,
    Cb,
    Cr,
}

// The number of the plane that holds a kind of sample.
pub fn plane_of(kind: SampleKind) -> u8
    ensures { result ≡ plane_number kind }
{
    match kind {
        SampleKind::Y => 0,
        SampleKind::Cb => 1,
        SampleKind::Cr => 2,
    }
}

// What a sample stands for on a scale.
pub fn level(v: u16, s: Scale) -> f32
    requires { Measurable s }
    ensures { result ≡ float_quotient v s }
{
    let above = v as i32 - s.plus as i32;
    let numerator = above as f32;
    let denominator = s.times as f32;
    numerator / denominator
}

fn scale_of(kind: SampleKind, full: bool, luma: LumaDepth, chroma: ChromaDepth) -> Scale
    requires depth { Depth luma.0 }
    requires depth_2 { Depth chroma.0 }
    ensures { result ≡ scale_of kind full luma chroma }
{
    match kind {
        SampleKind::Y => scale::luma_scale(full, luma),
        SampleKind::Cb => scale::chroma_scale(full, chroma),
        SampleKind::Cr => scale::chroma_scale(full, chroma),
    }
}

// The level of one sample of a named kind.
pub fn level_of(kind: SampleKind, full: bool, luma: LumaDepth, chroma: ChromaDepth, v: u16) -> f32
    requires depth { Depth luma.0 }
    requires depth_2 { Depth chroma.0 }
    ensures { result ≡ level_of kind full luma chroma v }
{
    let s = scale_of(kind, full, luma, chroma);
    level(v, s)
}

// The three levels of a pixel.
pub fn levels_of(full: bool, luma: LumaDepth, chroma: ChromaDepth, p: Pixel) -> PixelLevels
    requires depth { Depth luma.0 }
    requires depth_2 { Depth chroma.0 }
    ensures { result ≡ levels_of full luma chroma p }
{
    let y = level_of(SampleKind::Y, full, luma, chroma, p.p0);
    let cb = level_of(SampleKind::Cb, full, luma, chroma, p.p1);
    let cr = level_of(SampleKind::Cr, full, luma, chroma, p.p2);
    PixelLevels { y, cb, cr }
}
