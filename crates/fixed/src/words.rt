// The words of a line, worked out once for many pixels. Where a number has no room there are none.
ghost use Rattle.std.specs.Prelude.{◌≡◌, true, ◌*◌, ◌^◌, ◌≤◌, ◌<◌, IfSome};
ghost use Rattle.levels.specs.Conversion.{most_sample};
ghost use Rattle.levels.specs.Room.{Room};
ghost use Rattle.fixed.specs.Words.{past_words};
ghost use Rattle.fixed.specs.Steps.{weight_of, Small, Scales, Scaled, HighFits, Finished, Good};

use crate::division::Wide;
use crate::lift::Lift;
use crate::reduce::Reduced;
use crate::{division, lift, reduce};
use levels::lines::Line;

// A weight in parts of the unit, and where its sample is measured from.
#[derive(Clone, Copy)]
pub struct Weight {
    pub high: u32,
    pub low: u32,
    pub mark: u16,
}

// The numbers of a line, for samples up to `most`, in parts of a unit of 2^(32 + shift). `high` and `low` are the constant, with the
// line lifted by `lift`; `add` makes up for what rounding down loses; `under` is what the lift has above the line's mid.
// `WordsFit` is no ghost field: the theorem `words_are` speaks of all words that stand for a line, whether they fit or not.
#[derive(Clone, Copy)]
pub struct Words {
    pub first: Weight,
    pub second: Weight,
    pub third: Weight,
    pub high: u64,
    pub low: u64,
    pub most: u16,
    pub shift: u32,
    pub add: u64,
    pub lift: u16,
    pub under: u16,
    pub top: u16,
}

// The four numbers of a line in two words each, before it is known whether they have room.
#[derive(Clone, Copy)]
pub(crate) struct Scaling {
    first: Wide,
    second: Wide,
    third: Wide,
    base: Wide,
}

// Whether no number of a line is past all samples.
fn is_small(r: Reduced, c: u64) -> bool
    requires { 0 < r.e }
    ensures { result ≡ true → Small r c }
{
    let largest = r.first.a.max(r.second.a).max(r.third.a).max(c);
    largest / r.e < sample::PAST_SAMPLES
}

// Each number is divided by e, and the constant is one part less.
fn scaling_of(r: Reduced, c: u64, shift: u32) -> Scaling
    requires small { Small r c }
    requires scales { Scales r c shift }
    ensures { Scaled r c (past_words * 2 ^ shift) result }
{
    let first = division::scaled(r.first.a, r.e, shift);
    let second = division::scaled(r.second.a, r.e, shift);
    let third = division::scaled(r.third.a, r.e, shift);
    let base = division::one_less(division::scaled(c, r.e, shift));
    Scaling {
        first,
        second,
        third,
        base,
    }
}

// Whether the high words have room at every pixel, each by itself and in a sum.
fn has_room(n: Scaling, most: u16, shift: u32) -> bool
    requires { shift ≤ 34 }
    ensures { result ≡ true → HighFits most shift n }
{
    let h0 = n.first.high;
    let h1 = n.second.high;
    let h2 = n.third.high;
    let high = n.base.high;
    let most = most as u64;
    let past = sample::PAST_SAMPLES << shift;
    h0.max(h1).max(h2) < 1 << 32
        && high < past
        && most * (h0 + h1 + h2) + high + 3 * most + 2 < past
}

fn weight_of(w: Wide, mark: u16) -> Weight
    requires high_lt_past_words { w.high < past_words }
    requires low_lt_past_words { w.low < past_words }
    ensures { result ≡ weight_of w mark }
{
    Weight {
        high: w.high as u32,
        low: w.low as u32,
        mark,
    }
}

// The words of a line, whose numbers are all found.
fn made(line: Line, most: u16, r: Reduced, v: Lift, shift: u32, n: Scaling) -> Words
    requires room { Room line }
    requires finished { Finished line most r v shift n }
    ensures { Good line most result }
{
    Words {
        first: weight_of(n.first, r.first.mark),
        second: weight_of(n.second, r.second.mark),
        third: weight_of(n.third, r.third.mark),
        high: n.base.high,
        low: n.base.low,
        most,
        shift,
        add: 3 * (most as u64) + 2,
        lift: v.by as u16,
        under: (v.by - line.mid) as u16,
        top: line.top as u16,
    }
}

// The words of a line, for samples up to `most` in all three planes. A line whose planes are of depths far apart may have no room: what
// the shallow plane gives at samples that it never has then passes 16 bits.
pub fn words_of(line: Line, most: u16) -> Option<Words>
    requires room { Room line }
    requires most_le_most_sample { most ≤ most_sample }
    ensures { IfSome result (λ w. Good line most w) }
{
    let r = reduce::reduce(line, most);
    let v = lift::lifted(r, line.mid)?;
    let shift = division::shift_for(3 * (most as u64) + 2, r.e)?;
    if !is_small(r, v.c) {
        return None;
    }
    let n = scaling_of(r, v.c, shift);
    if !has_room(n, most, shift) {
        return None;
    }
    Some(made(line, most, r, v, shift, n))
}
