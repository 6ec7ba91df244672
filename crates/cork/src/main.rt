// The box at the counter. It reads its words, asks the box, and says the answer in words with its numbers.
#![tactic(auto)]

ghost use Rattle.std.specs.Prelude.{◌≡◌, ◌≤◌, ◌-◌, min, length};
ghost use Rattle.cork.specs.CommandLine.{most_words, Words, edition_said};

use codes::label::CodeKind;
use counter::{GAP, saying, wording};
use meter::SampleKind;
use request::form::{Expected, Fault, RangeNames};
use request::{Request, form};
use setting::{Call, Way};
use std::env::{Env, FillError};
use std::fs::{File, Files};
use std::io;
use text::reading;

// How many words are read: no request has so many.
const MOST_WORDS: usize = 20;

// The names of the two ranges.
const RANGES: RangeNames<'static> = RangeNames {
    narrow: b"narrow",
    full: b"full",
};

// The names of the editions, from number 1 on, and the number of the one that is meant where none is named.
const EDITIONS: [u8; 20] = *b"2021 draft published";

const PUBLISHED: u8 = 3;

// The edition that a request is read by, and how many words named it.
#[derive(Clone, Copy)]
struct Said {
    edition: u8,
    words: u8,
}

// Word 1, where it names an edition. Behind each word stands the 0 that `word` puts there.
fn edition_said(words: reading::Words<'_>, names: &[u8]) -> Said
    requires { words.gap ≡ 0 }
    ensures { result ≡ edition_said words.entry.gap words.entry.text.now names.now }
{
    let editions = reading::Words {
        text: names,
        gap: b' ',
    };
    match editions.place(words.word(1)) {
        Some(place @ 0..=2) => Said {
            edition: place as u8 + 1,
            words: 1,
        },
        _ => Said {
            edition: PUBLISHED,
            words: 0,
        },
    }
}

// What the words of a request come to, where an edition may have stood before them.
fn asked(
    rt: &impl Print,
    words: reading::Words<'_>,
    said: Said,
    request: Result<Request, Fault>,
) -> io::Result<()> {
    match request {
        Ok(request) => saying::answer(rt, request, ask::ask(request)),
        Err(fault) => saying::fault(rt, words, said.words, fault),
    }
}

fn on_pixel(rt: &impl Print, words: reading::Words<'_>, said: Said, call: Call) -> io::Result<()> {
    let request = form::pixel_form(call, said.edition, words, RANGES);
    asked(rt, words, said, request)
}

fn on_meter(rt: &impl Print, words: reading::Words<'_>, said: Said) -> io::Result<()> {
    let kind = match words.word(9) {
        b"y" => SampleKind::Y,
        b"cb" => SampleKind::Cb,
        b"cr" => SampleKind::Cr,
        _ => return on_pixel(rt, words, said, Call::Meter),
    };
    let request = form::sample_form(kind, said.edition, words, RANGES, 10);
    asked(rt, words, said, request)
}

fn on_label(rt: &impl Print, words: reading::Words<'_>, said: Said) -> io::Result<()> {
    let request = match words.word(1) {
        b"primaries" => form::label_form(CodeKind::Primaries, said.edition, words, 2),
        b"transfer" => form::label_form(CodeKind::Transfer, said.edition, words, 2),
        b"matrix" => form::label_form(CodeKind::Matrix, said.edition, words, 2),
        _ => Err(Fault {
            word: 1,
            expected: Expected::CodeKind,
        }),
    };
    asked(rt, words, said, request)
}

// All words, with a 0 behind each.
fn on_words(rt: &(impl Env + Files<File = File> + Print), all: reading::Words<'_>) -> io::Result<()>
    requires { all.gap ≡ 0 }
{
    let said = edition_said(all, &EDITIONS);
    let words = all.skip(said.words);
    match all.first() {
        b"forward" => on_pixel(rt, words, said, Call::Convert(Way::Forward)),
        b"reverse" => on_pixel(rt, words, said, Call::Convert(Way::Reverse)),
        b"source" => on_pixel(rt, words, said, Call::ImageCheck),
        b"meter" => on_meter(rt, words, said),
        b"label" => on_label(rt, words, said),
        b"label-of" => file_label::asked(rt, all),
        b"help" | b"--help" | b"-h" => wording::usage(rt),
        _ => {
            let verb = Fault {
                word: 0,
                expected: Expected::Verb,
            };
            saying::fault(rt, all, 0, verb)
        }
    }
}

// One word of the command line, at the end of those before it. A word that is longer than `one`
// leaves its beginning there: that goes on with two dots, as no word does that belongs anywhere.
fn word(rt: &impl Env, i: usize, words: &mut [u8], at: usize) -> usize
    requires { at ≤ length words.old }
    ensures words { Words 1 words.old at words.new result }
    ensures upper_bound { result ≤ length words.old }
{
    let mut one = [0u8; 64];
    let n = rt.arg(i, &mut one).unwrap_or(0);
    if n == 0 && one[0] != 0 {
        let cut = text::writing::put(words, at, &one);
        return text::writing::put(words, cut, b"..\0");
    }
    let next = text::writing::put(words, at, &one[..n]);
    text::writing::put(words, next, b"\0")
}

// All words, or the first of them.
fn all_words(rt: &impl Env, count: usize, words: &mut [u8]) -> usize
    ensures words { Words (min (count - 1) most_words) words.old 0 words.new result }
    ensures upper_bound { result ≤ length words.old }
{
    let mut at = 0;
    for i in 1..count.min(MOST_WORDS + 1) {
        at = word(rt, i, words, at);
    }
    at
}

fn main(rt: HostRuntime) -> io::Result<()> {
    // the words of the command line, with the program's name, but no more than are read and one
    let mut count = 0;
    let mut one = [0u8; 1];
    for i in 0..MOST_WORDS + 2 {
        if let Err(FillError::NotPresent) = rt.arg(i, &mut one) {
            break;
        }
        count = i + 1;
    }
    if count < 2 {
        return wording::usage(&rt);
    }
    let mut words = [0u8; 4096];
    let n = all_words(&rt, count, &mut words);
    let all = reading::Words {
        text: &words[..n],
        gap: GAP,
    };
    on_words(&rt, all)
}
