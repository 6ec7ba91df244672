// Colour records: what one says, and what several of them come to.
ghost use Rattle.std.specs.Prelude.{◌≡◌, ◌≤◌, ◌<◌, length};
ghost use Rattle.media.specs.Saying.{letters_of, older_of, nclx_said, older_said, record_said, older_key, label_key, key_of, between, merged, beside, across};
ghost use Rattle.media.specs.SaidIn.{SaidIn};
ghost use Rattle.media.specs.Inside.{TroubleIn};

use crate::finding;
use crate::finding::Trouble;
use nclx::ColourLabel;
use std::os::unix::fs::FileExt;

// The codes of an older record.
#[derive(Clone, Copy)]
pub struct Codes {
    pub primaries: u16,
    pub transfer: u16,
    pub matrix: u16,
}

// What a part of a file says of its colour, where there is no trouble with it.
#[derive(Clone, Copy)]
pub enum Said {
    // it is no picture
    Other,
    // there is no record
    Nothing,
    // there is an ICC profile
    Profile,
    // there is an 'nclc' record, which has no range flag
    Older(Codes),
    Label(ColourLabel),
    // there is an 'nclx' record that is refused by this number
    Refused(u8),
    // there are records that do not agree
    Differ,
}

// Four letters as one number, a byte for each.
const COLR: u32 = 0x636f_6c72;

const NCLC: u32 = 0x6e63_6c63;

const PROF: u32 = 0x7072_6f66;

const RICC: u32 = 0x7249_4343;

// How long an 'nclc' record is.
const OLDER_BYTES: usize = 10;

// One byte more than a whole record has.
const RECORD_ROOM: u64 = 12;

// The first four letters of a record, where it has so many.
fn letters_of(bytes: &[u8]) -> Option<u32>
    ensures { result ≡ letters_of bytes.now }
{
    if bytes.len() < 4 {
        return None;
    }
    Some(boxes::word_at(bytes, 0))
}

// The codes of 16 bits that follow the letters.
fn older_of(bytes: &[u8]) -> Codes
    requires { 10 ≤ length bytes.now }
    ensures { result ≡ older_of bytes.now }
{
    let two = boxes::word_at(bytes, 4);
    let last = boxes::word_at(bytes, 6);
    Codes {
        primaries: (two / 65536) as u16,
        transfer: (two % 65536) as u16,
        matrix: (last % 65536) as u16,
    }
}

// What a record says by the rules on an 'nclx' record.
#[tactic(auto, unfolding(crate::specs::Saying::nclx_said))]
fn nclx_said(bytes: &[u8]) -> Said
    ensures { result ≡ nclx_said bytes.now }
{
    match nclx::read(bytes) {
        Ok(label) => Said::Label(label),
        Err(refusal) => Said::Refused(refusal.number),
    }
}

// What a record says that begins with 'nclc'.
#[tactic(auto, unfolding(crate::specs::Saying::older_said))]
fn older_said(bytes: &[u8]) -> Said
    ensures { result ≡ older_said bytes.now }
{
    if bytes.len() == OLDER_BYTES {
        Said::Older(older_of(bytes))
    } else {
        nclx_said(bytes)
    }
}

// What a record says.
#[tactic(auto, unfolding(crate::specs::Saying::record_said))]
pub fn record_said(bytes: &[u8]) -> Said
    ensures { result ≡ record_said bytes.now }
{
    match letters_of(bytes) {
        Some(PROF | RICC) => Said::Profile,
        Some(NCLC) => older_said(bytes),
        _ => nclx_said(bytes),
    }
}

// One number is made of what is said: what counts more is larger by this, and the same is said where the number is the same.
const RANK: u64 = 1 << 48;

fn older_key(c: Codes) -> u64
    ensures value { result ≡ older_key c }
    ensures upper_bound { result < 281474976710656 }
{
    (u64::from(c.primaries) * 65536 + u64::from(c.transfer)) * 65536 + u64::from(c.matrix)
}

fn label_key(l: ColourLabel) -> u64
    ensures value { result ≡ label_key l }
    ensures upper_bound { result < 33554432 }
{
    let codes = (u64::from(l.primaries) * 256 + u64::from(l.transfer)) * 256 + u64::from(l.matrix);
    codes * 2 + u64::from(l.full)
}

#[tactic(auto, unfolding(crate::specs::Saying::key_of))]
fn key_of(said: Said) -> u64
    ensures { result ≡ key_of said }
{
    match said {
        Said::Other => 0,
        Said::Nothing => RANK,
        Said::Profile => 2 * RANK,
        Said::Older(c) => 3 * RANK + older_key(c),
        Said::Label(l) => 4 * RANK + label_key(l),
        Said::Refused(n) => 4 * RANK + 33554432 + u64::from(n),
        Said::Differ => 5 * RANK,
    }
}

// The one that counts more, and of two that count the same none.
#[tactic(auto, unfolding(crate::specs::Saying::merged))]
fn merged(a: Said, b: Said) -> Said
    ensures { result ≡ merged a b }
{
    let x = key_of(a);
    let y = key_of(b);
    if x == y {
        a
    } else if x / RANK < y / RANK {
        b
    } else if y / RANK < x / RANK {
        a
    } else {
        Said::Differ
    }
}

// The one that is a picture, and of two the same.
#[tactic(auto, unfolding(crate::specs::Saying::between))]
fn between(a: Said, b: Said) -> Said
    ensures { result ≡ between a b }
{
    let x = key_of(a);
    let y = key_of(b);
    if x == y {
        a
    } else if x / RANK == 0 {
        b
    } else if y / RANK == 0 {
        a
    } else {
        Said::Differ
    }
}

// What two records of one picture come to: the one that counts more. Trouble counts most.
pub fn beside(a: Result<Said, Trouble>, b: Result<Said, Trouble>) -> Result<Said, Trouble>
    ensures { result ≡ beside a b }
{
    Ok(merged(a?, b?))
}

// What two pictures of one file come to: they have to say the same, and trouble with one is trouble with both. What is no picture says nothing.
pub fn across(a: Result<Said, Trouble>, b: Result<Said, Trouble>) -> Result<Said, Trouble>
    ensures { result ≡ across a b }
{
    Ok(between(a?, b?))
}

// What a record says that fills a buffer.
fn read_said(file: &impl FileExt, from: u64, end: u64, bytes: &mut [u8]) -> Result<Said, Trouble>
    ensures { SaidIn from end result }
{
    match finding::read_at(file, from, bytes) {
        Ok(n) if n < bytes.len() => Err(Trouble::Ended),
        Err(e) if !bytes.is_empty() => Err(Trouble::Unread(e.raw_os_error())),
        // the bytes were read, or there are none, and nothing of the record is lost
        _ => Ok(record_said(bytes)),
    }
}

// What the record says that lies between two positions. Of one that is too long a byte more is read than of a whole one.
fn record_at(file: &impl FileExt, from: u64, end: u64) -> Result<Said, Trouble>
    requires { from ≤ end }
    ensures { SaidIn from end result }
{
    let mut bytes = [0u8; RECORD_ROOM as usize];
    let n = (end - from).min(RECORD_ROOM) as usize;
    read_said(file, from, end, &mut bytes[..n])
}

// What was said, where the boxes end in four zero bytes, as those of a QuickTime file may; otherwise the trouble.
fn ended(
    file: &impl FileExt,
    from: u64,
    end: u64,
    t: Trouble,
    said: Result<Said, Trouble>,
) -> Result<Said, Trouble>
    requires { TroubleIn from end t × SaidIn from end said }
    ensures { SaidIn from end result }
{
    match t {
        Trouble::Cut { at, left: 4 } if finding::number_at(file, at, end) == Some(0) => said,
        _ => Err(t),
    }
}

// What the records between two positions say of one picture.
pub fn records_said(file: &impl FileExt, from: u64, end: u64) -> Result<Said, Trouble>
    ensures { SaidIn from end result }
{
    let mut said = Ok(Said::Nothing);
    let mut at = from;
    // A while loop: the walk goes on from where the record ends.
    while at < end {
        match finding::find(file, at, end, Some(COLR), 0) {
            Ok(Some(s)) => {
                said = beside(said, record_at(file, s.from, s.end));
                at = s.end;
            }
            Ok(None) => return said,
            Err(t) => return ended(file, from, end, t, said),
        }
    }
    said
}
