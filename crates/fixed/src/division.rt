// Numbers over e in parts of 2^(32 + k), rounded down: long divisions, a bit a step, once for each number of a line.
ghost use Rattle.std.specs.Prelude.{◌*◌, ◌-◌, ◌/◌, ◌^◌, ◌≤◌, ◌<◌, IfSome};
ghost use Rattle.sample.specs.Depth.{past_samples};
ghost use Rattle.fixed.specs.Words.{past_words, word};
ghost use Rattle.fixed.specs.Steps.{Parts, BitsFit, InWords};

// A quotient so far, and what is left over.
#[derive(Clone, Copy)]
pub struct Part {
    pub whole: u64,
    pub rest: u64,
}

// A number in two words, the low one of 32 bits.
#[derive(Clone, Copy)]
pub struct Wide {
    pub high: u64,
    pub low: u64,
}

// One bit more.
fn step(p: Part, e: u64) -> Part
    requires { BitsFit p e 1 }
    ensures { Parts p e 2 result }
{
    let twice = 2 * p.rest;
    if twice < e {
        Part {
            whole: 2 * p.whole,
            rest: twice,
        }
    } else {
        Part {
            whole: 2 * p.whole + 1,
            rest: twice - e,
        }
    }
}

// n bits more.
fn bits(p: Part, e: u64, n: u32) -> Part
    requires { BitsFit p e n }
    ensures { Parts p e (2 ^ n) result }
{
    let mut at = p;
    for i in 0..n {
        at = step(at, e);
    }
    at
}

// a / e: k bits for the high word, and 32 for the low one out of what is left over.
pub fn scaled(a: u64, e: u64, k: u32) -> Wide
    requires e_nonzero { 0 < e }
    requires e_bound { e ≤ 2 ^ 63 }
    requires k_bound { k ≤ 34 }
    requires e_bound_2 { a / e < past_samples }
    ensures { InWords (past_words * 2 ^ k * a / e) result }
{
    let start = Part {
        whole: a / e,
        rest: a % e,
    };
    let upper = bits(start, e, k);
    let next = Part {
        whole: 0,
        rest: upper.rest,
    };
    let lower = bits(next, e, 32);
    Wide {
        high: upper.whole,
        low: lower.whole,
    }
}

// A number of two words, less one.
pub fn one_less(w: Wide) -> Wide
    requires low_nonzero { 0 < word w.high w.low }
    requires low_lt_past_words { w.low < past_words }
    ensures { InWords (word w.high w.low - 1) result }
{
    if w.low == 0 {
        Wide {
            high: w.high - 1,
            low: (1 << 32) - 1,
        }
    } else {
        Wide {
            high: w.high,
            low: w.low - 1,
        }
    }
}

// The first k of 0 to 34 at which n e is at most 2^(32 + k), found by halving e.
pub fn shift_for(n: u64, e: u64) -> Option<u32>
    requires { 0 < n }
    ensures fine { IfSome result (λ k. n * e ≤ past_words * 2 ^ k) }
    ensures upper_bound { IfSome result (λ k. k ≤ 34) }
{
    let most = (1 << 32) / n;
    let mut rest = e;
    for k in 0..35u32 {
        if rest <= most {
            return Some(k);
        }
        rest -= rest / 2;
    }
    None
}
