// The quotients of three runs, once for many pixels. Runs of any other form, or without room, have none.
ghost use Rattle.std.specs.Prelude.{◌≡◌, IfSome};
ghost use Rattle.levels.specs.Room.{AllReady};
ghost use Rattle.runs.specs.Found.{RunsFound};
ghost use Rattle.quotients.specs.Standing.{OneTop, Stands};

use crate::factors::Quotients;
use crate::numbers;
use levels::lines::Lines;
use runs::{Runs, mix};

// The largest sample of all three planes, if it is one and Y has no middle.
fn one_top(lines: Lines) -> Option<u16>
    requires { AllReady lines }
    ensures { IfSome result (λ top. OneTop lines top) }
{
    let first = lines.first.line;
    let top = first.top;
    if 0 < first.mid || lines.second.line.top != top || lines.third.line.top != top {
        return None;
    }
    Some(top as u16)
}

// The quotients of three lines, whose runs were found. The weights are taken as often as 16 bits have room for.
pub fn prepare(r: Runs, lines: Lines) -> Option<Quotients>
    requires all_ready { AllReady lines }
    requires runs_found { RunsFound lines r }
    ensures { IfSome result (λ k. Stands lines k × (k.mix.most ≡ r.most)) }
{
    let second = lines.second.line;
    let third = lines.third.line;
    let most = r.most as u64;
    let scale = 65535 / r.all;
    let top = one_top(lines)?;
    let luma = numbers::luma_factor(r.luma, scale, r.bias)?;
    let blue = numbers::share_of(r.blue, scale, r.bias, r.kb * most, second.mid)?;
    let red = numbers::share_of(r.red, scale, r.bias, r.kr * most, third.mid)?;
    Some(Quotients {
        mix: mix::mix_of(r, scale),
        luma: luma as u32,
        blue,
        red,
        top,
    })
}
