// The label of a media file: the file is opened, its colour records are found, and what they say is said.
#![tactic(auto)]

ghost use Rattle.std.specs.Prelude.{◌≡◌};
ghost use Rattle.file_label.specs.Length.{length_of};

mod names;
mod words;

use crate::words::{Reason, sentence};
use counter::saying;
use media::file::{FileSaid, Tracks};
use media::finding::Trouble;
use media::records::Said;
use media::{file, finding};
use request::form::{Expected, Fault};
use std::env::{Env, FillError};
use std::fs::{File, Files};
use std::io;
use std::io::{Seek, SeekFrom};
use std::os::unix::fs::FileExt;
use text::reading::Words;

// One track, counted from 1 among all of the file, where it is a picture.
fn track(rt: &impl Print, n: u64, said: Result<Said, Trouble>) -> io::Result<()> {
    if let Ok(Said::Other) = said {
        return Ok(());
    }
    print!(rt; "track {n}: ")?;
    sentence(rt, said)
}

// A line for each track of pictures.
fn tracks(rt: &impl Print, source: &impl FileExt, from: u64, end: u64) -> io::Result<()> {
    let mut n: u64 = 0;
    let mut at = from;
    // A while loop: the walk goes on from where the track ends.
    while let Ok(Some(s)) = finding::find(source, at, end, Some(file::TRAK), 0) {
        n += 1;
        track(rt, n, file::track_said(source, s.from, s.end))?;
        at = s.end;
    }
    Ok(())
}

// A line for the image, where there is one beside the tracks, and the tracks'.
fn parts(
    rt: &impl Print,
    source: &impl FileExt,
    size: u64,
    image: Result<Said, Trouble>,
) -> io::Result<()> {
    let Ok(Some(s)) = file::movie(source, size) else {
        return Ok(());
    };
    if !matches!(image, Ok(Said::Other)) {
        print!(rt; "image: ")?;
        sentence(rt, image)?;
    }
    tracks(rt, source, s.from, s.end)
}

// The answer, and what it is made of where that is more than one picture.
fn answer(rt: &impl Print, source: &impl FileExt, size: u64, f: FileSaid) -> io::Result<()> {
    sentence(rt, f.said)?;
    match (f.tracks, f.said) {
        (Tracks::Several, _) | (_, Ok(Said::Differ)) => parts(rt, source, size, f.image),
        _ => Ok(()),
    }
}

// A length as the system told it, or 0 where it told none.
fn length_of(told: io::Result<u64>) -> u64
    ensures { result ≡ length_of told }
{
    told.unwrap_or(0)
}

fn opened(rt: &impl Print, mut source: File) -> io::Result<()> {
    let size = length_of(source.seek(SeekFrom::End(0)));
    answer(rt, &source, size, file::file_said(&source, size))
}

fn unopened(rt: &impl Print, error: Option<i32>) -> io::Result<()> {
    println!(rt; "cannot open the file: {}", Reason(error))
}

fn named(rt: &(impl Files<File = File> + Print), path: &[u8]) -> io::Result<()> {
    let Ok(name) = str::from_utf8(path) else {
        return unopened(rt, Some(words::EILSEQ));
    };
    match File::open(rt, name) {
        Ok(source) => opened(rt, source),
        Err(e) => unopened(rt, e.raw_os_error()),
    }
}

// The file's name is taken whole, as the command line has it, and not from these words, which are cut.
pub fn asked(rt: &(impl Env + Files<File = File> + Print), words: Words<'_>) -> io::Result<()> {
    if words.has_word(2) {
        let more = Fault {
            word: 2,
            expected: Expected::NoMore,
        };
        return saying::fault(rt, words, 0, more);
    }
    if words.has_word(1) {
        let mut path = [0u8; 4096];
        return match rt.arg(2, &mut path) {
            Ok(n) => named(rt, &path[..n]),
            Err(FillError::TooLong) => unopened(rt, Some(words::ENAMETOOLONG)),
            Err(FillError::NotPresent) => unopened(rt, Some(words::EINVAL)),
        };
    }
    println!(rt; "word 2 is missing; expected: the name of an MP4, MOV or AVIF file")
}
