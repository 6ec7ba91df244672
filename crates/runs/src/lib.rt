// A pixel's light is R, G and B in one weighted sum. The lines of a luma matrix run evenly with it, and with how far B and R are from it: the
// three runs are found once for many pixels, and what prepares numbers for a row starts from them.
#![tactic(auto)]

mod line;
pub mod mix;
mod weights;

ghost use Rattle.std.specs.Prelude.{◌≡◌, ◌≤◌, IfSome};
ghost use Rattle.levels.specs.Conversion.{most_sample};
ghost use Rattle.levels.specs.Room.{AllReady};
ghost use Rattle.runs.specs.Found.{RunsFound};

use levels::lines::Lines;

// times (n - start) / over + level: what is rounded to a sample.
#[derive(Clone, Copy)]
pub struct Run {
    pub times: u64,
    pub over: u64,
    pub start: u64,
    pub level: u64,
}

// The weights of R, G and B, their sum, the largest light of samples up to `most`, and how each plane runs.
#[derive(Clone, Copy)]
pub struct Runs {
    pub kr: u64,
    pub kg: u64,
    pub kb: u64,
    pub all: u64,
    pub most: u16,
    pub bias: u64,
    pub luma: Run,
    pub blue: Run,
    pub red: Run,
}

// The runs of three lines, for samples up to `most`. Lines of any other form than a luma matrix's forward ones have none.
pub fn runs_of(lines: Lines, most: u16) -> Option<Runs>
    requires all_ready { AllReady lines }
    requires most_le_most_sample { most ≤ most_sample }
    ensures { IfSome result (λ r. RunsFound lines r × (r.most ≡ most)) }
{
    let first = lines.first.line;
    let second = lines.second.line;
    let third = lines.third.line;
    let k = weights::weights_of(first.equation)?;
    let bias = k.all * (most as u64);
    let luma = line::luma_run(first, k.times)?;
    let blue = line::colour_run(line::blue_of(second.equation), k.kr, k.kg, bias, second)?;
    let red = line::colour_run(line::red_of(third.equation), k.kg, k.kb, bias, third)?;
    Some(Runs {
        kr: k.kr,
        kg: k.kg,
        kb: k.kb,
        all: k.all,
        most,
        bias,
        luma,
        blue,
        red,
    })
}
