// Answers as lines of text, as test cases have them. They are held to stored answers, since no contract can speak of what is written.
#![tactic(auto)]

use codes::label::Label;
use judge::Difference;
use nclx::ColourLabel;
use nclx::picking::Winner;
use refusal::{Place, Refusal};
use request::Answer;
use std::io;

pub fn bad_line(rt: &impl Print) -> io::Result<()> {
    println!(rt; "bad line")
}

fn refused(rt: &impl Print, r: Refusal) -> io::Result<()> {
    print!(rt; "refused {}", r.number)?;
    if r.number == Refusal::SAMPLE_BEYOND_DEPTH {
        let place = r.place;
        print!(rt;
            " plane {} row {} column {}",
            place.plane, place.row, place.column
        )?;
        print!(rt; " sample {}", r.sample)?;
    }
    println!(rt)
}

// A plane's samples, with a blank between them.
pub fn plane(rt: &impl Print, p: &[u16]) -> io::Result<()> {
    if let Some((first, rest)) = p.split_first() {
        print!(rt; "{first}")?;
        for v in rest {
            print!(rt; " {v}")?;
        }
    }
    println!(rt)
}

fn label(rt: &impl Print, l: Label) -> io::Result<()> {
    match l {
        Label::Assigned => println!(rt; "assigned"),
        Label::Unspecified => println!(rt; "unspecified"),
        Label::Reserved => println!(rt; "reserved"),
    }
}

fn source(rt: &impl Print, found: bool) -> io::Result<()> {
    if found {
        println!(rt; "yes")
    } else {
        println!(rt; "none")
    }
}

// Floats by their bits.
pub fn answer(rt: &impl Print, a: Result<Answer, Refusal>) -> io::Result<()> {
    match a {
        Ok(Answer::Samples(_, p)) => println!(rt; "samples {} {} {}", p.p0, p.p1, p.p2),
        Ok(Answer::Source(found)) => source(rt, found),
        Ok(Answer::Level(x)) => println!(rt; "level {x:08x}"),
        Ok(Answer::Levels(y, cb, cr)) => println!(rt; "levels {y:08x} {cb:08x} {cr:08x}"),
        Ok(Answer::Label(l)) => label(rt, l),
        Err(r) => refused(rt, r),
    }
}

pub fn frame(rt: &impl Print, a: Result<(), Refusal>) -> io::Result<()> {
    match a {
        Ok(()) => println!(rt; "done"),
        Err(r) => refused(rt, r),
    }
}

pub fn image(rt: &impl Print, a: Result<Option<Place>, Refusal>) -> io::Result<()> {
    match a {
        Ok(None) => println!(rt; "yes"),
        Ok(Some(place)) => println!(rt; "none row {} column {}", place.row, place.column),
        Err(r) => refused(rt, r),
    }
}

fn differs(rt: &impl Print, d: Difference) -> io::Result<()> {
    let first = d.first;
    println!(rt;
        "differs row {} column {} wrong {}",
        first.row, first.column, d.count
    )
}

pub fn judgement(rt: &impl Print, a: Result<Option<Difference>, Refusal>) -> io::Result<()> {
    match a {
        Ok(None) => println!(rt; "agrees"),
        Ok(Some(d)) => differs(rt, d),
        Err(r) => refused(rt, r),
    }
}

// Bytes as numbers, each after a blank.
fn bytes(rt: &impl Print, b: &[u8]) -> io::Result<()> {
    for v in b {
        print!(rt; " {v}")?;
    }
    println!(rt)
}

fn colour_label(rt: &impl Print, l: ColourLabel) -> io::Result<()> {
    println!(rt;
        "label {} {} {} {}",
        l.primaries,
        l.transfer,
        l.matrix,
        u8::from(l.full)
    )
}

pub fn label_read(rt: &impl Print, a: Result<ColourLabel, Refusal>) -> io::Result<()> {
    match a {
        Ok(l) => colour_label(rt, l),
        Err(r) => refused(rt, r),
    }
}

pub fn record(rt: &impl Print, b: &[u8]) -> io::Result<()> {
    print!(rt; "record")?;
    bytes(rt, b)
}

// A winner with the part that was lent, and the number that came with it, which has to be that of the choice.
pub fn choice(rt: &impl Print, c: Result<Winner, Refusal>, n: u8, part: &[u8]) -> io::Result<()> {
    match c {
        Ok(Winner::Container) => print!(rt; "container")?,
        Ok(Winner::Stream) => print!(rt; "stream")?,
        Err(_) => print!(rt; "refused {n}")?,
    }
    bytes(rt, part)
}
