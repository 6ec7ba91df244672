// The weights of a luma matrix, read off the equation of Y by dividing, and tested.
ghost use Rattle.std.specs.Prelude.{◌<◌, IfSome};
ghost use Rattle.runs.specs.Found.{SumsFit, Weighed};

use levels::equations::Equation;
use rounding::common::common;

// The weights of R, G and B and their sum, and what multiplies them.
#[derive(Clone, Copy)]
pub struct Weights {
    pub kr: u64,
    pub kg: u64,
    pub kb: u64,
    pub all: u64,
    pub times: u64,
}

// The weights of an equation, if it only adds and 16 bits have room for them.
pub(crate) fn weights_of(w: Equation) -> Option<Weights>
    requires { SumsFit w }
    ensures weighed { IfSome result (λ k. Weighed w k) }
    ensures times_nonzero { IfSome result (λ k. 0 < k.times) }
{
    if w.up0 == 0 {
        return None;
    }
    let times = common(common(w.up0, w.up1), w.up2);
    let downs = w.down0 + w.down1 + w.down2;
    if 0 < w.up0 % times + w.up1 % times + w.up2 % times + downs {
        return None;
    }
    let kr = w.up0 / times;
    let kg = w.up1 / times;
    let kb = w.up2 / times;
    let all = kr + kg + kb;
    if 1 << 16 <= all {
        return None;
    }
    Some(Weights {
        kr,
        kg,
        kb,
        all,
        times,
    })
}
