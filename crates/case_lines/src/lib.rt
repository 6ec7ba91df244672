// Cases as lines of text, answered as the box answers them. docs/src/oracle says what a line means. A line's words are read as the counter's
// are. What is written to standard output is held to stored answers, since no contract can speak of it.
#![tactic(auto)]

ghost use Rattle.std.specs.Prelude.{◌≡◌, replicate};

mod claims;
mod pictures;
mod records;

use crate::pictures::FrameTask;
use case_words::{GAP, RANGES};
use codes::label::CodeKind;
use meter::SampleKind;
use request::form::Fault;
use request::{Request, form};
use setting::{Call, Way};
use std::io;
use text::reading::{Words, number_in};

// What a line asks of an edition: about a pixel, a sample, a code, a frame or an image.
#[derive(Clone, Copy)]
enum Task {
    Pixel(Call),
    Sample(SampleKind),
    Label(CodeKind),
    Frame(FrameTask, Way),
    Image,
}

fn asked(rt: &impl Print, request: Result<Request, Fault>) -> io::Result<()> {
    match request {
        Ok(request) => answer_lines::answer(rt, ask::ask(request)),
        Err(_) => answer_lines::bad_line(rt),
    }
}

// A line by what it asks, and its words from the edition on.
fn on_words(rt: &impl Print, task: Task, words: Words<'_>, edition: u8) -> io::Result<()> {
    match task {
        Task::Pixel(call) => asked(rt, form::pixel_form(call, edition, words, RANGES)),
        Task::Sample(kind) => asked(rt, form::sample_form(kind, edition, words, RANGES, 9)),
        Task::Label(kind) => asked(rt, form::label_form(kind, edition, words, 1)),
        Task::Frame(task, way) => pictures::on_frame(rt, words, edition, task, way),
        Task::Image => pictures::on_image(rt, words, edition),
    }
}

// A line that asks of a setting or of a code: its first word now is the number of the edition.
fn on_edition(rt: &impl Print, task: Task, words: Words<'_>) -> io::Result<()> {
    match number_in(words.first(), form::LARGEST_BYTE) {
        Some(edition) => on_words(rt, task, words, edition as u8),
        None => answer_lines::bad_line(rt),
    }
}

// The first word says what is asked. A blank stands between words.
fn on_line(rt: &impl Print, line: Words<'_>) -> io::Result<()>
    requires { line.gap ≡ 32 }
{
    let words = line.rest();
    let task = match line.first() {
        b"N" => return records::on_read(rt, words),
        b"W" => return records::on_write(rt, words),
        b"P" => return records::on_pick(rt, words),
        b"f" => Task::Pixel(Call::Convert(Way::Forward)),
        b"r" => Task::Pixel(Call::Convert(Way::Reverse)),
        b"s" => Task::Pixel(Call::ImageCheck),
        b"m" => Task::Pixel(Call::Meter),
        b"y" => Task::Sample(SampleKind::Y),
        b"b" => Task::Sample(SampleKind::Cb),
        b"c" => Task::Sample(SampleKind::Cr),
        b"p" => Task::Label(CodeKind::Primaries),
        b"t" => Task::Label(CodeKind::Transfer),
        b"x" => Task::Label(CodeKind::Matrix),
        b"F" => Task::Frame(FrameTask::Convert, Way::Forward),
        b"R" => Task::Frame(FrameTask::Convert, Way::Reverse),
        b"I" => Task::Image,
        b"J" => Task::Frame(FrameTask::Judge, Way::Forward),
        b"K" => Task::Frame(FrameTask::Judge, Way::Reverse),
        _ => return answer_lines::bad_line(rt),
    };
    on_edition(rt, task, words)
}

// Room for the text of all cases.
pub fn room() -> [u8; 1400000]
    ensures { result ≡ replicate 1400000 0 }
{
    [0; 1400000]
}

// Every line.
pub fn all(rt: &impl Print, text: &[u8]) -> io::Result<()> {
    let mut lines = Words { text, gap: b'\n' };
    while !lines.text.is_empty() {
        let line = Words {
            text: lines.first(),
            gap: GAP,
        };
        on_line(rt, line)?;
        lines = lines.rest();
    }
    Ok(())
}
