// What is added to a line, in whole numbers, so that nothing of it is below zero.
ghost use Rattle.std.specs.Prelude.{◌≤◌, ◌<◌, IfSome};
ghost use Rattle.levels.specs.Conversion.{most_sample};
ghost use Rattle.fixed.specs.Steps.{Lifts};

use crate::reduce::Reduced;

// The lift, and the constant that a line has then, over its e.
#[derive(Clone, Copy)]
pub struct Lift {
    pub by: u64,
    pub c: u64,
}

// The least lift that makes the constant more than 0, or mid where that is more, if there is room.
pub fn lifted(r: Reduced, mid: u64) -> Option<Lift>
    requires e_nonzero { 0 < r.e }
    requires mid_le_most_sample { mid ≤ most_sample }
    ensures { IfSome result (λ v. Lifts r mid v) }
{
    let whole = r.minus / r.e;
    if sample::PAST_SAMPLES - 1 <= whole {
        return None;
    }
    let by = (whole + 1).max(mid);
    if (1 << 62) / r.e < by || 1 << 62 < r.plus {
        return None;
    }
    let c = by * r.e - r.minus + r.plus;
    Some(Lift { by, c })
}
