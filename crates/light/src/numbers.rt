// The numbers of a plane from its run: the fraction in lower terms, a unit that is fine enough for it, the factor a little too large, and the
// base that makes the start exact. Where one of them has no room there are none.
ghost use Rattle.std.specs.Prelude.{◌+◌, ◌*◌, ◌^◌, ◌≤◌, ◌<◌, IfSome};
ghost use Rattle.light.specs.Scaled.{Fits, Scales};
ghost use Rattle.light.specs.Numbers.{Reduced, Sides, Past, Factor, Lift, Steps};

use crate::scaled::Scaled;
use rounding::common::common;
use runs::Run;

// q / e, in lower terms than it was.
#[derive(Clone, Copy)]
struct Ratio {
    q: u64,
    e: u64,
}

// Half a unit, and its bits past 31.
#[derive(Clone, Copy)]
struct Half {
    half: u64,
    shift: u32,
}

// What products of a unit stay below.
const ROOM: u64 = (1 << 63) - 1;

// times / over by smaller numbers, if what was found divides both.
fn reduced(times: u64, over: u64) -> Option<Ratio>
    requires { 0 < times }
    ensures reduced { IfSome result (λ by. Reduced times over by.q by.e) }
    ensures e_nonzero { IfSome result (λ by. 0 < by.e) }
{
    let g = common(times, over);
    let e = over / g;
    if 0 < times % g || 0 < over % g || e == 0 {
        return None;
    }
    Some(Ratio { q: times / g, e })
}

// What is added so that no half falls short: with no mid the start itself, and with one nothing. A level beside a mid has neither.
fn spare_of(run: Run, mid: u64) -> Option<u64>
    ensures sides { IfSome result (λ spare. Sides run mid spare) }
    ensures upper_bound { IfSome result (λ spare. spare ≤ run.start) }
{
    if mid == 0 {
        Some(run.start)
    } else if run.level == 0 {
        Some(0)
    } else {
        None
    }
}

// A half unit past n: 2^31, or what its bits past 31 make of that.
fn half_past(n: u64) -> Half
    requires { n < 2 ^ 62 }
    ensures { Past n result.half result.shift }
{
    let bits = 64 - n.leading_zeros();
    let shift = bits.saturating_sub(31);
    Half {
        half: (1 << 31) << shift,
        shift,
    }
}

// q / e in parts of the unit, a little too large, if that has room in 32 bits.
fn factor_of(q: u64, e: u64, half: u64) -> Option<u64>
    requires e_nonzero { 0 < e }
    requires half_nonzero { 0 < half }
    requires half_bound { half ≤ 2 ^ 62 }
    ensures factor { IfSome result (λ factor. Factor q e half factor) }
    ensures upper_bound { IfSome result (λ factor. factor < 2 ^ 32) }
{
    let unit = 2 * half;
    if ROOM / unit < q {
        return None;
    }
    let factor = unit * q / e + 1;
    if 1 << 32 <= factor {
        return None;
    }
    Some(factor)
}

// How many units bring the start above zero, and mid at the least.
fn lift_of(factor: u64, start: u64, half: u64, mid: u64) -> u64
    requires factor_bound { factor < 2 ^ 32 }
    requires start_bound { start < 2 ^ 30 }
    requires half_nonzero { 0 < half }
    requires half_bound { half ≤ 2 ^ 62 }
    ensures { Lift factor start half mid result }
{
    let unit = 2 * half;
    let lift = factor * start / unit + 1;
    lift.max(mid)
}

// The numbers, once the fraction, the spare and the unit are found.
fn finished(
    run: Run,
    by: Ratio,
    at: Half,
    spare: u64,
    mid: u64,
    top: u16,
    reach: u64,
) -> Option<Scaled>
    requires steps { Steps run by at spare mid reach }
    requires top_bound { top < 2 ^ 15 }
    ensures { IfSome result (λ s. Scales run mid top reach s × Fits s reach) }
{
    let half = at.half;
    let shift = at.shift;
    let factor = factor_of(by.q, by.e, half)?;
    let lift = lift_of(factor, run.start, half, mid);
    if 1 << 16 <= lift || ROOM / (2 * half) < run.level + lift + 1 {
        return None;
    }
    let base = 2 * half * (run.level + lift) + half + spare - factor * run.start;
    let last = ((factor * reach + base) >> 32) >> shift;
    if 1 << 15 <= last {
        return None;
    }
    Some(Scaled {
        factor: factor as u32,
        base,
        shift,
        under: (lift - mid) as u16,
        top,
    })
}

// The numbers of a run up to `reach`.
pub(crate) fn scaled_of(run: Run, mid: u64, top: u16, reach: u64) -> Option<Scaled>
    requires times_nonzero { 0 < run.times }
    requires level_bound { run.level < 2 ^ 63 }
    requires reach_bound { reach < 2 ^ 30 }
    requires top_bound { top < 2 ^ 15 }
    ensures { IfSome result (λ s. Scales run mid top reach s × Fits s reach) }
{
    let by = reduced(run.times, run.over)?;
    let spare = spare_of(run, mid)?;
    if reach < run.start || 1 << 28 <= by.e {
        return None;
    }
    let at = half_past(by.e * (reach + spare));
    finished(run, by, at, spare, mid, top, reach)
}
