// What samples stand for. Formulas and the meter read them alike, and the numbers of narrow range stand here alone.
#![tactic(auto)]

ghost use Rattle.std.specs.Prelude.{◌≡◌};
ghost use Rattle.sample.specs.Depth.{Depth};
ghost use Rattle.scale.specs.Scale.{light_by, rgb_scale, luma_scale, chroma_scale};

use sample::{ChromaDepth, LumaDepth, RgbDepth, SampleDepth};

// A sample v stands for (v - plus) / times.
#[derive(Clone, Copy)]
pub struct Scale {
    pub times: u64,
    pub plus: u64,
}

// Narrow range, in steps: from black to white and where black lies, and as far as chroma goes and where no colour lies.
const LIGHT_SPAN: u64 = 219;

const BLACK: u64 = 16;

const CHROMA_SPAN: u64 = 224;

const GREY: u64 = 128;

// R, G, B and Y are read alike, by the largest sample and the step of their depth.
fn light_scale(full: bool, top: u16, step: u16) -> Scale
    ensures { result ≡ light_by full top step }
{
    if full {
        Scale {
            times: top as u64,
            plus: 0,
        }
    } else {
        Scale {
            times: LIGHT_SPAN * step as u64,
            plus: BLACK * step as u64,
        }
    }
}

// R, G and B, and Y: the depth's type alone differs, and it is what keeps one from being read by the depth of the other.
pub fn rgb_scale(full: bool, d: RgbDepth) -> Scale
    requires { Depth d.0 }
    ensures { result ≡ rgb_scale full d }
{
    light_scale(full, d.largest(), d.step())
}

pub fn luma_scale(full: bool, d: LumaDepth) -> Scale
    requires { Depth d.0 }
    ensures { result ≡ luma_scale full d }
{
    light_scale(full, d.largest(), d.step())
}

pub fn chroma_scale(full: bool, d: ChromaDepth) -> Scale
    requires { Depth d.0 }
    ensures { result ≡ chroma_scale full d }
{
    if full {
        Scale {
            times: d.largest() as u64,
            plus: d.middle() as u64,
        }
    } else {
        let step = d.step() as u64;
        Scale {
            times: CHROMA_SPAN * step,
            plus: GREY * step,
        }
    }
}
