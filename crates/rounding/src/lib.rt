// Round and Clip, each with its one home. A number below zero is carried as the difference of two that are not.
#![tactic(auto)]

pub mod common;
pub mod narrow;
pub mod quotient;

ghost use Rattle.std.specs.Prelude.{◌≡◌, cond, ◌+◌, ◌*◌, ◌-◌, ◌^◌, ◌≤◌, ◌<◌, min, pos, ◌+ℤ◌, ◌-ℤ◌};
ghost use Rattle.sample.specs.Depth.{most_depth, M};
ghost use Rattle.rounding.specs.Rounding.{round, clip, Rounds, RoundsSmall};
ghost use Rattle.rounding.specs.Quotient.{Divides};

use quotient::Divisor;

// mid moved by n, down or up, and brought into 0..top.
fn moved(n: u64, mid: u64, top: u64, down: bool) -> u16
    requires mid_le_top { mid ≤ top }
    requires top_bound { top ≤ M most_depth }
    ensures { result ≡ cond down (mid - n) (min (mid + n) top) }
{
    if down {
        mid.saturating_sub(n) as u16
    } else {
        mid.saturating_add(n).min(top) as u16
    }
}

// What is divided by 2 * den, on either side of zero: twice how far p is from q, and den, which carries a half away from zero.
fn dividend(p: u64, q: u64, den: u64) -> u64
    requires den_bound { 2 * p + den < 2 ^ 64 }
    requires den_bound_2 { 2 * q + den < 2 ^ 64 }
    ensures { result ≡ 2 * (p - q + (q - p)) + den }
{
    2 * p.abs_diff(q) + den
}

// Clip(Round((p - q) / den) + mid) into 0..top. For a denominator that many numbers are divided by: `by` stands for twice that.
pub fn round_clip_by(p: u64, q: u64, den: u64, by: Divisor, mid: u64, top: u64) -> u16
    requires rounds { Rounds p q den mid top }
    requires divides { Divides by }
    requires over_value { by.over ≡ 2 * den }
    ensures { result ≡ clip top (round (pos p -ℤ pos q) den +ℤ pos mid) }
{
    let n = quotient::quotient(dividend(p, q, den), by);
    moved(n, mid, top, p < q)
}

// Clip(p - q) into 0..top.
pub fn clip_difference(p: u32, q: u32, top: u32) -> u16
    requires { top ≤ M most_depth }
    ensures { result ≡ clip top (pos p -ℤ pos q) }
{
    p.saturating_sub(q).min(top) as u16
}

// Clip(Round((p - q) / den) + mid) into 0..top, for small numbers and a denominator that is a literal: 32 bits are enough for what is divided, lifted
// so that it is not negative. Below zero it is less by one, which carries a half away from zero.
pub fn round_clip(p: u32, q: u32, den: u32, mid: u32, top: u32) -> u16
    requires { RoundsSmall p q den mid top }
    ensures { result ≡ clip top (round (pos p -ℤ pos q) den +ℤ pos mid) }
{
    let lift = sample::PAST_SAMPLES as u32;
    let m = 2 * (p + lift * den) + den - 2 * q;
    let n = (m - u32::from(p < q)) / (2 * den);
    clip_difference(n, lift - mid, top)
}
