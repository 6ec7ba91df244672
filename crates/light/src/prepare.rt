// The numbers of three runs, once for many pixels. A plane whose numbers have no room has none.
ghost use Rattle.std.specs.Prelude.{◌≡◌, ◌<◌, ◌^◌, IfSome};
ghost use Rattle.levels.specs.Room.{Room, AllReady};
ghost use Rattle.runs.specs.Found.{RunsFound};
ghost use Rattle.light.specs.Light.{Stands};
ghost use Rattle.light.specs.Scaled.{Fits, Scales};

use crate::numbers;
use crate::scaled::{Light, Scaled};
use levels::lines::{Line, Lines};
use runs::{Run, Runs, mix};

// One plane, whose line has that run.
fn plane(run: Run, l: Line, reach: u64) -> Option<Scaled>
    requires room { Room l }
    requires times_nonzero { 0 < run.times }
    requires level_bound { run.level < 2 ^ 63 }
    requires reach_bound { reach < 2 ^ 30 }
    ensures { IfSome result (λ s. Scales run l.mid l.top reach s × Fits s reach) }
{
    numbers::scaled_of(run, l.mid, l.top as u16, reach)
}

// The numbers of three lines, whose runs were found.
pub fn prepare(r: Runs, lines: Lines) -> Option<Light>
    requires all_ready { AllReady lines }
    requires runs_found { RunsFound lines r }
    ensures { IfSome result (λ k. Stands lines k × (k.mix.most ≡ r.most)) }
{
    let luma = plane(r.luma, lines.first.line, r.bias)?;
    let blue = plane(r.blue, lines.second.line, 2 * r.bias)?;
    let red = plane(r.red, lines.third.line, 2 * r.bias)?;
    Some(Light {
        mix: mix::mix_of(r, 1),
        luma,
        blue,
        red,
    })
}
