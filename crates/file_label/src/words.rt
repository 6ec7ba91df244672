// What a media file says of its colour, in words. The first words of a sentence give the exit status of the script `cork`.
ghost use Rattle.std.specs.Prelude.{◌≤◌};

use crate::names::{Matrix, Primaries, Transfer};
use boxes::Header;
use counter::wording;
use media::finding::Trouble;
use media::records::{Codes, Said};
use nclx::ColourLabel;
use output::say;
use std::{fmt, io};

// The system's numbers for why a call failed.
const ENOENT: i32 = 2;

const EIO: i32 = 5;

const EACCES: i32 = 13;

const ENOTDIR: i32 = 20;

const EISDIR: i32 = 21;

pub const EINVAL: i32 = 22;

pub const ENAMETOOLONG: i32 = 36;

// That of a name that is no text.
pub const EILSEQ: i32 = 84;

// Why the system did not let a file be opened or read, by its number for that, where it has one.
#[derive(Clone, Copy)]
pub struct Reason(pub Option<i32>);

impl fmt::Display for Reason {
    fn fmt<W: fmt::Write>(&self, f: &mut fmt::Formatter<W>) -> fmt::Result {
        f.write_str(match self.0 {
            Some(ENOENT) => "no such file",
            Some(EACCES) => "no permission",
            Some(ENOTDIR) => "a part of its name is no folder",
            Some(EISDIR) => "it is a folder",
            Some(ENAMETOOLONG) => "its name is too long",
            Some(EIO) => "its device fails",
            Some(EILSEQ) => "its name is not in UTF-8",
            _ => "the system refuses it",
        })
    }
}

// A byte of a box's name, with a point for what can't be shown.
fn shown(byte: u8) -> u8
    ensures { (32 ≤ result) × (result ≤ 126) }
{
    match byte {
        32..=126 => byte,
        _ => b'.',
    }
}

fn box_name(rt: &impl Print, h: Header) -> io::Result<()> {
    print!(rt; "damaged file: box '")?;
    say(rt, &h.kind.to_be_bytes().map(shown))?;
    print!(rt; "' at byte {} claims {} bytes, and ", h.at, h.size)
}

fn trouble(rt: &impl Print, t: Trouble) -> io::Result<()> {
    match t {
        Trouble::Unread(error) => println!(rt; "cannot read the file: {}", Reason(error)),
        Trouble::Ended => println!(rt; "cannot read the file: it ended too early"),
        Trouble::Stranger => println!(rt; "not an MP4, MOV or AVIF file: it does not begin as one"),
        Trouble::Beyond { header, left } => {
            box_name(rt, header)?;
            println!(rt; "{left} are left")
        }
        Trouble::Small { header, least } => {
            box_name(rt, header)?;
            println!(rt; "{least} are the least that it takes")
        }
        Trouble::Cut { at, left } => {
            print!(rt; "damaged file: a box should begin at byte {at}")?;
            println!(rt; ", and {left} bytes are left, too few for one")
        }
    }
}

fn codes(rt: &impl Print, c: Codes) -> io::Result<()> {
    print!(rt;
        "primaries {}, transfer {}, matrix {}, ",
        Primaries(c.primaries),
        Transfer(c.transfer),
        Matrix(c.matrix)
    )
}

// A label, and the words of a setting that it gives.
fn label(rt: &impl Print, l: ColourLabel) -> io::Result<()> {
    let c = Codes {
        primaries: u16::from(l.primaries),
        transfer: u16::from(l.transfer),
        matrix: u16::from(l.matrix),
    };
    codes(rt, c)?;
    let range = if l.full { "full" } else { "narrow" };
    print!(rt;
        "{range}; in cork's words: {} {} {}",
        c.primaries, c.transfer, c.matrix
    )?;
    println!(rt; " .. .. .. .. {range}")
}

fn older(rt: &impl Print, c: Codes) -> io::Result<()> {
    print!(rt; "older label: ")?;
    codes(rt, c)?;
    println!(rt; "without a range flag (nclc); find out whether its range is narrow or full")
}

fn refused(rt: &impl Print, n: u8) -> io::Result<()> {
    print!(rt; "refused {n}: ")?;
    wording::meaning(rt, n)?;
    println!(rt)
}

// A sentence, with its line's end.
pub fn sentence(rt: &impl Print, said: Result<Said, Trouble>) -> io::Result<()> {
    match said {
        Ok(Said::Other) => println!(rt; "no colour record: the file has no pictures"),
        Ok(Said::Nothing) => println!(rt; "no colour record: nothing says what its colours mean"),
        Ok(Said::Profile) => println!(rt; "ICC profile: it has that instead of a colour record"),
        Ok(Said::Older(c)) => older(rt, c),
        Ok(Said::Label(l)) => label(rt, l),
        Ok(Said::Refused(n)) => refused(rt, n),
        Ok(Said::Differ) => {
            println!(rt; "differing records: the file has colour records that do not agree")
        }
        Err(t) => trouble(rt, t),
    }
}
