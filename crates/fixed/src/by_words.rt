// A sample by the words of its line, with no division. The form is one that many pixels are computed in side by side: products of two
// numbers of 32 bits, and 16 bits from the shift on.
ghost use Rattle.std.specs.Prelude.{◌≡◌, cond, ltb, ◌+◌, ◌*◌, ◌-◌, ◌^◌, ◌<◌, min};
ghost use Rattle.sample.specs.Depth.{UpTo};
ghost use Rattle.fixed.specs.Numbers.{distance};
ghost use Rattle.fixed.specs.Words.{sums_of, whole_of, sided_sample, raised_sample, WholeFits, WordsFit};

use crate::words::Words;
use sample::Pixel;

// The sum of the high words and that of the low words.
#[derive(Clone, Copy)]
struct Sums {
    high: u64,
    low: u64,
}

// How far v is from a mark.
fn distance(v: u16, mark: u16) -> u32
    ensures { result ≡ distance v mark }
{
    v.abs_diff(mark) as u32
}

fn sum(w0: u32, u0: u32, w1: u32, u1: u32, w2: u32, u2: u32, base: u64) -> u64
    requires { w0 * u0 + w1 * u1 + w2 * u2 + base < 2 ^ 64 }
    ensures { result ≡ w0 * u0 + w1 * u1 + w2 * u2 + base }
{
    (w0 as u64) * (u0 as u64) + (w1 as u64) * (u1 as u64) + (w2 as u64) * (u2 as u64) + base
}

fn sums_of(by: Words, p: Pixel) -> Sums
    requires words_fit { WordsFit by }
    requires up_to { UpTo by.most p }
    ensures { result ≡ sums_of by p }
{
    let u0 = distance(p.p0, by.first.mark);
    let u1 = distance(p.p1, by.second.mark);
    let u2 = distance(p.p2, by.third.mark);
    let high = sum(
        by.first.high,
        u0,
        by.second.high,
        u1,
        by.third.high,
        u2,
        by.high,
    );
    let low = sum(
        by.first.low,
        u0,
        by.second.low,
        u1,
        by.third.low,
        u2,
        by.low,
    );
    Sums { high, low }
}

// The whole units of a sum and `add`.
fn whole(s: Sums, add: u64, shift: u32) -> u16
    requires { WholeFits s add shift }
    ensures { result ≡ whole_of s add shift }
{
    ((s.high + ((s.low + add) >> 32)) >> shift) as u16
}

// n - under, brought into 0..top.
fn clipped(n: u16, under: u16, top: u16) -> u16
    ensures { result ≡ min (n - under) top }
{
    n.saturating_sub(under).min(top)
}

// Below the lift the line is below zero.
fn sided(down: u16, up: u16, lift: u16) -> u16
    ensures { result ≡ cond (ltb down lift) down up }
{
    if down < lift { down } else { up }
}

// One sample by its words. A half below zero goes down and any other up; which it is, is read off the whole units.
pub fn sided_sample(by: Words, p: Pixel) -> u16
    requires words_fit { WordsFit by }
    requires up_to { UpTo by.most p }
    ensures { result ≡ sided_sample by p }
{
    let s = sums_of(by, p);
    let down = whole(s, 0, by.shift);
    let up = whole(s, by.add, by.shift);
    clipped(sided(down, up, by.lift), by.under, by.top)
}

// The same for words that add nothing after Round: Clip makes 0 of all that is below zero, whichever way a half goes. The two share `sums_of`, `whole`
// and `clipped`; one function over what lies between those would be no shorter than either.
pub fn raised_sample(by: Words, p: Pixel) -> u16
    requires words_fit { WordsFit by }
    requires up_to { UpTo by.most p }
    ensures { result ≡ raised_sample by p }
{
    let s = sums_of(by, p);
    let up = whole(s, by.add, by.shift);
    clipped(up, by.under, by.top)
}
