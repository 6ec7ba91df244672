// An equation, the samples that it reads and the plane that it writes, brought together in one line before any pixel is met.
ghost use Rattle.std.specs.Prelude.{◌≡◌, ◌+◌, ◌*◌, ◌^◌, ◌≤◌, ◌<◌};
ghost use Rattle.levels.specs.Conversion.{most_sample, most_total};
ghost use Rattle.levels.specs.Lines.{writer_of, readers_of_rgb, readers_of_ycc, spread, line_of, ready_line, lines_of};
ghost use Rattle.levels.specs.Room.{ScaleFits, SpreadFits, LineFits};

use crate::equations::{Equation, Equations};
use rounding::quotient::Divisor;
use scale::Scale;

// One prepared sample: the equation's sum over the samples themselves, and up - down, over its denominator. That is rounded, mid is added,
// and the result is brought into 0..top.
#[derive(Clone, Copy)]
pub struct Line {
    pub equation: Equation,
    pub up: u64,
    pub down: u64,
    pub mid: u64,
    pub top: u64,
}

// A line, and what stands for its divisor, which is twice its denominator.
#[derive(Clone, Copy)]
pub struct ReadyLine {
    pub line: Line,
    pub by: Divisor,
}

// The three samples of a pixel, by plane. `AllReady` is no ghost field, since the definition `lines_of` makes them of any equations. They have
// names and are no array: a clause sees an array as a list, and `lines_pixel` would have to say what it gives where that has not three lines.
#[derive(Clone, Copy)]
pub struct Lines {
    pub first: ReadyLine,
    pub second: ReadyLine,
    pub third: ReadyLine,
}

// How a level E is written: Clip(Round(times E + plus) + mid) into 0..top.
#[derive(Clone, Copy)]
pub struct Writer {
    pub times: u64,
    pub plus: u64,
    pub mid: u64,
    pub top: u64,
}

// A sample's level is mul (v - plus) over a denominator that it shares with the two others.
#[derive(Clone, Copy)]
pub struct Reader {
    pub mul: u64,
    pub plus: u64,
}

// The three samples of a pixel: the first, the two that are read alike, and the denominator.
#[derive(Clone, Copy)]
pub struct Readers {
    pub first: Reader,
    pub rest: Reader,
    pub common: u64,
}

// What a scale takes away is added again: before Round where the range is narrow, after it where it is full.
pub(crate) fn writer_of(full: bool, s: Scale, top: u16) -> Writer
    ensures { result ≡ writer_of full s top }
{
    if full {
        Writer {
            times: s.times,
            plus: 0,
            mid: s.plus,
            top: top as u64,
        }
    } else {
        Writer {
            times: s.times,
            plus: s.plus,
            mid: 0,
            top: top as u64,
        }
    }
}

// R, G and B have one scale.
pub(crate) fn readers_of_rgb(s: Scale) -> Readers
    ensures { result ≡ readers_of_rgb s }
{
    let each = Reader {
        mul: 1,
        plus: s.plus,
    };
    Readers {
        first: each,
        rest: each,
        common: s.times,
    }
}

// Y has one scale and both chroma samples another: each is brought over the product of the two.
pub(crate) fn readers_of_ycc(luma: Scale, chroma: Scale) -> Readers
    requires scale_fits { ScaleFits luma }
    requires scale_fits_2 { ScaleFits chroma }
    ensures { result ≡ readers_of_ycc luma chroma }
{
    let first = Reader {
        mul: chroma.times,
        plus: luma.plus,
    };
    let rest = Reader {
        mul: luma.times,
        plus: chroma.plus,
    };
    let common = chroma.times * luma.times;
    Readers {
        first,
        rest,
        common,
    }
}

// A weight, with what its sample is read by and what the result is written by.
fn carried(u: u64, mul: u64, times: u64) -> u64
    requires u_in { u ≤ most_total }
    requires mul_in { mul ≤ most_sample }
    requires times_in { times ≤ most_sample }
    ensures { result ≡ times * (mul * u) }
{
    times * (mul * u)
}

// Three numbers, each times its weight, and one more.
pub(crate) fn weighted_sum(w0: u64, x: u64, w1: u64, y: u64, w2: u64, z: u64, more: u64) -> u64
    requires { w0 * x + w1 * y + w2 * z + more < 2 ^ 64 }
    ensures { result ≡ w0 * x + w1 * y + w2 * z + more }
{
    w0 * x + w1 * y + w2 * z + more
}

// An equation over the samples themselves: each weight with what its sample is read by, and with what the result is written by.
fn spread(w: Equation, from: Readers, times: u64) -> Equation
    requires { SpreadFits w from times }
    ensures { result ≡ spread w from times }
{
    let first = from.first.mul;
    let rest = from.rest.mul;
    Equation {
        up0: carried(w.up0, first, times),
        up1: carried(w.up1, rest, times),
        up2: carried(w.up2, rest, times),
        down0: carried(w.down0, first, times),
        down1: carried(w.down1, rest, times),
        down2: carried(w.down2, rest, times),
        over: w.over * from.common,
    }
}

// The line of an equation. What the scales take away is taken once for all pixels.
fn line_of(w: Equation, from: Readers, to: Writer) -> Line
    requires { LineFits w from to }
    ensures { result ≡ line_of w from to }
{
    let equation = spread(w, from, to.times);
    let first = from.first.plus;
    let rest = from.rest.plus;
    let added = to.plus * equation.over;
    let up = weighted_sum(
        equation.down0,
        first,
        equation.down1,
        rest,
        equation.down2,
        rest,
        added,
    );
    let down = weighted_sum(
        equation.up0,
        first,
        equation.up1,
        rest,
        equation.up2,
        rest,
        0,
    );
    Line {
        equation,
        up,
        down,
        mid: to.mid,
        top: to.top,
    }
}

// A line, with what stands for its divisor worked out once for many pixels.
fn ready_line(w: Equation, from: Readers, to: Writer) -> ReadyLine
    requires { LineFits w from to }
    ensures { result ≡ ready_line w from to }
{
    let line = line_of(w, from, to);
    let twice = 2 * line.equation.over;
    let by = rounding::quotient::divisor_of(twice);
    ReadyLine { line, by }
}

// The lines of three equations, the first into one plane and the others into two alike.
pub(crate) fn lines_of(e: Equations, from: Readers, light: Writer, colour: Writer) -> Lines
    requires line_fits { LineFits e.first from light }
    requires line_fits_2 { LineFits e.second from colour }
    requires line_fits_3 { LineFits e.third from colour }
    ensures { result ≡ lines_of e from light colour }
{
    let first = ready_line(e.first, from, light);
    let second = ready_line(e.second, from, colour);
    let third = ready_line(e.third, from, colour);
    Lines {
        first,
        second,
        third,
    }
}
