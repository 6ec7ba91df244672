// What the box answers, in words with its numbers, and where the words of a request are at fault.
ghost use Rattle.std.specs.Prelude.{◌≡◌, pos};
ghost use Rattle.counter.specs.Millionths.{millionths};

use crate::wording::InWords;
use crate::{beyond, wording};
use codes::label::Label;
use output::say;
use refusal::Refusal;
use request::form::{Expected, Fault};
use request::{Answer, Request};
use sample::Pixel;
use setting::Way;
use std::io;
use text::reading::Words;

// The word at which reading stopped, counted with the words before these, and what was expected of it. Where none stands before them, word 1 could
// have named an edition.
pub fn fault(rt: &impl Print, words: Words<'_>, before: u8, f: Fault) -> io::Result<()> {
    let place = u64::from(before) + u64::from(f.word);
    print!(rt; "word {}", place + 1)?;
    if words.has_word(f.word) {
        print!(rt; ", '")?;
        say(rt, words.word(f.word))?;
        print!(rt; "',")?;
        if f.expected == Expected::NoMore {
            return println!(rt; " is one too many");
        }
        print!(rt; " is not what belongs there")?;
    } else {
        print!(rt; " is missing")?;
    }
    print!(rt; "; expected: ")?;
    if place == 1 {
        print!(rt; "{}, or ", wording::EDITIONS)?;
    }
    println!(rt; "{}", InWords(f.expected))
}

fn refused(rt: &impl Print, request: Request, r: Refusal) -> io::Result<()> {
    print!(rt; "refused {}: ", r.number)?;
    if r.number == Refusal::SAMPLE_BEYOND_DEPTH {
        beyond::sample(rt, request, r)?;
    } else {
        wording::meaning(rt, r.number)?;
    }
    println!(rt)
}

// The way that made the samples says which three they are.
fn converted(rt: &impl Print, way: Way, p: Pixel) -> io::Result<()> {
    match way {
        Way::Forward => println!(rt; "Y {}  Cb {}  Cr {}", p.p0, p.p1, p.p2),
        Way::Reverse => println!(rt; "R {}  G {}  B {}", p.p0, p.p1, p.p2),
    }
}

// A level's size in millionths, to the nearest. A float of an exponent below 127 + 23 is its 24 bits over a power of two; no level is 4
// or more.
fn millionths(bits: u32) -> u64
    ensures { pos result ≡ millionths bits }
{
    let exponent = bits / 8388608 % 256;
    let mantissa = (bits % 8388608 + 8388608) as u64;
    if exponent < 100 {
        return 0;
    }
    if 140 < exponent {
        return 0;
    }
    let shift = 150 - exponent;
    let halves = (mantissa * 2000000) >> shift;
    (halves + 1) / 2
}

// The level as a decimal, and the float itself by its bits.
fn level(rt: &impl Print, name: &str, bits: u32) -> io::Result<()> {
    let sign = if 2147483647 < bits { "-" } else { "" };
    let m = millionths(bits);
    let whole = m / 1000000;
    let rest = m % 1000000;
    println!(rt; "{name} level {sign}{whole}.{rest:06} (float bits {bits:08x})")
}

fn label(rt: &impl Print, l: Label) -> io::Result<()> {
    match l {
        Label::Assigned => println!(rt; "assigned"),
        Label::Unspecified => println!(rt; "unspecified"),
        Label::Reserved => println!(rt; "reserved"),
    }
}

fn source(rt: &impl Print, found: bool) -> io::Result<()> {
    if found {
        println!(rt; "yes: an RGB pixel within depth converts to this one")
    } else {
        println!(rt; "none: no RGB pixel within depth converts to this one")
    }
}

// The answer to a request, which tells what a refused sample was measured by.
pub fn answer(rt: &impl Print, request: Request, a: Result<Answer, Refusal>) -> io::Result<()> {
    match a {
        Ok(Answer::Samples(way, p)) => converted(rt, way, p),
        Ok(Answer::Source(found)) => source(rt, found),
        Ok(Answer::Level(bits)) => level(rt, "sample", bits),
        Ok(Answer::Levels(y, cb, cr)) => {
            level(rt, "Y", y)?;
            level(rt, "Cb", cb)?;
            level(rt, "Cr", cr)
        }
        Ok(Answer::Label(l)) => label(rt, l),
        Err(r) => refused(rt, request, r),
    }
}
