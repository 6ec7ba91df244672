// Boxes found in an open file. A few thousand bytes are read at a time, from where the next box starts.
ghost use Rattle.std.specs.Prelude.{◌≡◌, ◌≢◌, ◌≤◌, ◌+◌, ◌-◌, IfOk, IfErr, IfSome};
ghost use Rattle.boxes.specs.declared.Walked.{Walked};
ghost use Rattle.media.specs.declared.finding.Trouble.{Trouble};
ghost use Rattle.media.specs.Counts.{IsPrefixLen};
ghost use Rattle.media.specs.Inside.{Lying, TroubleIn, Here, FoundIn};

use boxes::{Header, Walked};
use std::io;
use std::os::unix::fs::FileExt;

// A part of a file: from one position to before another.
#[derive(Clone, Copy)]
pub struct Span {
    pub from: u64,
    pub end: u64,
}

// Why a file was not understood. Positions are counted from its start.
#[derive(Clone, Copy)]
pub enum Trouble {
    // nothing could be read, for this reason in the system's numbers, where it has one
    Unread(Option<i32>),
    // the file ended before it should have
    Ended,
    // it begins as no such file does
    Stranger,
    // a box claims more than the bytes that are left
    Beyond { header: Header, left: u64 },
    // a box claims less than the least that it takes
    Small { header: Header, least: u64 },
    // fewer bytes are left than a header takes
    Cut { at: u64, left: u64 },
}

// Four letters as one number, a byte for each (the value of a constant can't be a call of from_be_bytes): the kinds of box that have something in front of the boxes that they hold.
pub const STSD: u32 = 0x7374_7364;

pub const META: u32 = 0x6d65_7461;

// The largest offset that the system takes.
const FURTHEST: u64 = i64::MAX as u64;

// How many bytes are looked at in one step.
const WINDOW: usize = 4096;

// How many bytes were read, from a position on.
pub fn read_at(file: &impl FileExt, at: u64, buffer: &mut [u8]) -> io::Result<usize>
    ensures { IfOk result (λ n. IsPrefixLen n buffer.new) }
{
    if FURTHEST < at {
        return Ok(0);
    }
    file.read_at(buffer, at)
}

// Four bytes at a position as one number, if they lie before `end`.
pub fn number_at(file: &impl FileExt, at: u64, end: u64) -> Option<u32>
    ensures { IfSome result (λ number. at + 4 ≤ end) }
{
    if end < 4 || end - 4 < at {
        return None;
    }
    let mut four = [0u8; 4];
    let n = read_at(file, at, &mut four).ok()?;
    if n < four.len() {
        return None;
    }
    Some(u32::from_be_bytes(four))
}

// What a walk over the bytes that were read comes to; `unread` where they are not so many as the next header.
fn walked(part: &[u8], room: u64, kind: Option<u32>, unread: Trouble) -> Result<Walked, Trouble>
    ensures inside { IfOk result (Lying room) }
    ensures onward { IfOk result (λ w. w ≢ Walked.Further 0) }
    ensures unread { IfErr result (λ t. t ≡ unread) }
{
    match boxes::walk(part, room, kind) {
        Walked::Further(0) => Err(unread),
        seen => Ok(seen),
    }
}

// What a walk over the bytes from a position comes to.
fn look(file: &impl FileExt, from: u64, end: u64, kind: Option<u32>) -> Result<Walked, Trouble>
    requires { from ≤ end }
    ensures inside { IfOk result (Lying (end - from)) }
    ensures onward { IfOk result (λ w. w ≢ Walked.Further 0) }
    ensures trouble { IfErr result (TroubleIn from end) }
{
    let mut window = [0u8; WINDOW];
    match read_at(file, from, &mut window) {
        Ok(n) => walked(&window[..n], end - from, kind, Trouble::Ended),
        Err(e) => walked(&[], end - from, kind, Trouble::Unread(e.raw_os_error())),
    }
}

// A header by where it stands in the file.
fn moved(h: Header, from: u64, end: u64) -> Header
    requires { (from ≤ end) × (h.at ≤ end - from) }
    ensures { result ≡ record { at = from + h.at; kind = h.kind; length = h.length; size = h.size } }
{
    Header {
        at: from + h.at,
        ..h
    }
}

// What a box holds that starts after as many bytes more as are skipped.
fn held(h: Header, from: u64, end: u64, skip: u8) -> Result<Option<Span>, Trouble>
    requires { (from ≤ end) × Lying (end - from) (Walked.Found h) }
    ensures { FoundIn from end result }
{
    let least = h.length + u64::from(skip);
    let header = moved(h, from, end);
    if h.size < least {
        return Err(Trouble::Small { header, least });
    }
    Ok(Some(Span {
        from: header.at + least,
        end: header.at + h.size,
    }))
}

// What a walk came to, by where it stands in the file.
fn placed(seen: Walked, from: u64, end: u64, skip: u8) -> Result<Option<Span>, Trouble>
    requires { (from ≤ end) × Lying (end - from) seen }
    ensures { FoundIn from end result }
{
    match seen {
        Walked::Found(h) => held(h, from, end, skip),
        Walked::Beyond(h) => {
            let header = moved(h, from, end);
            let left = end - header.at;
            Err(Trouble::Beyond { header, left })
        }
        Walked::Small(h) => {
            let header = moved(h, from, end);
            let least = h.length;
            Err(Trouble::Small { header, least })
        }
        Walked::Further(_) => Err(Trouble::Ended),
        Walked::Cut(p) => {
            let at = from + p;
            let left = end - at;
            Err(Trouble::Cut { at, left })
        }
        Walked::End => Ok(None),
    }
}

// The first box of a kind, or of any, between two positions. What it holds is told without as many bytes in front as are skipped.
pub fn find(
    file: &impl FileExt,
    from: u64,
    end: u64,
    kind: Option<u32>,
    skip: u8,
) -> Result<Option<Span>, Trouble>
    ensures { FoundIn from end result }
{
    let mut at = from;
    // A while loop: the walk goes on from where reading stopped.
    while at < end {
        let seen = look(file, at, end, kind)?;
        let Walked::Further(on) = seen else {
            return placed(seen, at, end, skip);
        };
        at += on;
    }
    Ok(None)
}

// How many bytes a box of this kind has in front of the boxes that it holds: its version and flags, and how many there are.
fn in_front(kind: u32) -> u8
    ensures { result ≤ 8 }
{
    match kind {
        META => 4,
        STSD => 8,
        _ => 0,
    }
}

// The box at the end of a path of kinds, each in the one before.
pub fn descend(
    file: &impl FileExt,
    from: u64,
    end: u64,
    path: &[u32],
) -> Result<Option<Span>, Trouble>
    requires { from ≤ end }
    ensures { Here from end result }
{
    let mut part = Span { from, end };
    for &kind in path {
        let Some(s) = find(file, part.from, part.end, Some(kind), in_front(kind))? else {
            return Ok(None);
        };
        part = s;
    }
    Ok(Some(part))
}
