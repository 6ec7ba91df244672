// The factors of three runs. How one is found needs no proof: all that makes it exact is tested, and where a test fails there is none.
ghost use Rattle.std.specs.Prelude.{◌≡◌, ◌+◌, ◌*◌, ◌/◌, ◌^◌, ◌≤◌, ◌<◌, IfSome};
ghost use Rattle.levels.specs.Conversion.{most_sample};
ghost use Rattle.quotients.specs.Exact.{Even, LumaExact, ShareExact, Testable, Shares};

use crate::factors::Share;
use runs::Run;

// 2^32, and how many parts of Y and of Cb or Cr are one.
const PARTS: u64 = 1 << 32;

const LUMA_UNIT: u64 = 1 << 47;

const UNIT: u64 = 1 << 48;

// The e of a run of whole steps, (n - start) / e, if it is even and has 16 bits.
fn steps_of(run: Run) -> Option<u64>
    requires { 0 < run.times }
    ensures even { IfSome result (λ e. Even run e (e / 2)) }
    ensures upper_bound { IfSome result (λ e. e ≤ 65535) }
{
    let e = run.over / run.times;
    if 0 < run.over % run.times || 0 < run.level {
        return None;
    }
    if e == 0 || 1 << 16 <= e || 0 < e % 2 {
        return None;
    }
    Some(e)
}

// The factor of Y, whose lights go up to `bias`.
pub(crate) fn luma_factor(run: Run, scale: u64, bias: u64) -> Option<u64>
    requires times_nonzero { 0 < run.times }
    requires scale_nonzero { 0 < scale }
    requires scale_bound { scale ≤ 65535 }
    requires bias_bound { bias ≤ 65535 * 4095 }
    ensures luma_exact { IfSome result (λ factor. LumaExact run scale bias factor) }
    ensures upper_bound { IfSome result (λ factor. factor < 2 ^ 32) }
{
    let e = steps_of(run)?;
    let d = scale * e;
    if 0 < run.start || 1 << 20 <= d {
        return None;
    }
    let factor = LUMA_UNIT / d + 1;
    if PARTS <= factor {
        return None;
    }
    let rest = factor * d - LUMA_UNIT;
    if LUMA_UNIT <= rest * bias {
        return None;
    }
    Some(factor)
}

// A factor that is a little more than a unit over d, and so much more that it falls just short of whole parts at the start, which is `at`; and what is
// then to be taken away, so that the start becomes mid and a half.
fn tuned(d: u64, at: u64, mid: u64) -> Option<Share>
    requires d_nonzero { 0 < d }
    requires at_nonzero { 0 < at }
    requires at_bound { at < 2 ^ 30 }
    requires mid_bound { mid < 2 ^ 30 }
    ensures { IfSome result (λ by. by.factor < 2 ^ 32) }
{
    let first = UNIT / d + 1;
    if PARTS <= first {
        return None;
    }
    let left = first * at % PARTS;
    let factor = first + (3 * PARTS - left) / at;
    if PARTS <= factor {
        return None;
    }
    let up = factor * at / PARTS + 1;
    let lift = mid * (1 << 16) + (1 << 15);
    if up < lift {
        return None;
    }
    Some(Share {
        factor: factor as u32,
        take: (up - lift) as u32,
    })
}

// By how much a factor falls short, at the start, of what makes that mid and a half, if it is not past it, nor 2^30 or more short.
fn miss_of(by: Share, at: u64, mid: u64) -> Option<u64>
    requires at_bound { at ≤ 65535 * 4095 }
    requires mid_le_most_sample { mid ≤ most_sample }
    ensures value { IfSome result (λ miss. by.factor * at + miss ≡ by.take * 4294967296 + mid * 281474976710656 + 140737488355328) }
    ensures upper_bound { IfSome result (λ miss. miss < 2 ^ 30) }
{
    let total = (by.factor as u64) * at;
    let take = by.take as u64;
    if 1 << 30 <= take {
        return None;
    }
    let whole = take * PARTS + mid * UNIT + LUMA_UNIT;
    if whole < total || 1 << 30 <= whole - total {
        return None;
    }
    Some(whole - total)
}

// How much more than a unit d steps are, if they are more, and by less than 2^30.
fn rest_of(factor: u64, d: u64) -> Option<u64>
    requires factor_bound { factor < 2 ^ 32 }
    requires d_bound { d < 2 ^ 32 }
    ensures value { IfSome result (λ rest. factor * d ≡ 281474976710656 + rest) }
    ensures lower_bound { IfSome result (λ rest. 0 < rest) }
    ensures upper_bound { IfSome result (λ rest. rest < 2 ^ 30) }
{
    let units = factor * d;
    if units <= UNIT || 1 << 30 <= units - UNIT {
        return None;
    }
    Some(units - UNIT)
}

// A share, if it is exact for n from `low` to as far above the start, which is `bias`.
fn exact(run: Run, e: u64, scale: u64, bias: u64, low: u64, mid: u64, by: Share) -> Option<Share>
    requires testable { Testable run scale bias low mid }
    requires even { Even run e (e / 2) }
    requires e_bound { e ≤ 65535 }
    ensures { IfSome result (λ s. ShareExact run mid scale bias low s) }
{
    let far = bias - low;
    let miss = miss_of(by, scale * bias, mid)?;
    let rest = rest_of(by.factor as u64, scale * e)?;
    if rest < 2 * miss {
        return None;
    }
    if UNIT <= rest * far + e * miss || e * mid + e / 2 <= far {
        return None;
    }
    Some(by)
}

// The share of Cb or Cr.
pub(crate) fn share_of(run: Run, scale: u64, bias: u64, low: u64, mid: u64) -> Option<Share>
    requires { Testable run scale bias low mid }
    ensures { IfSome result (λ s. Shares run mid scale bias low s) }
{
    let e = steps_of(run)?;
    let d = scale * e;
    let at = scale * bias;
    if d == 0 || at == 0 {
        return None;
    }
    let tried = tuned(d, at, mid)?;
    let by = exact(run, e, scale, bias, low, mid, tried)?;
    if (by.factor as u64) * (scale * low) / PARTS < (by.take as u64) {
        return None;
    }
    Some(by)
}
