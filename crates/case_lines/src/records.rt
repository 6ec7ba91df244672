// Cases on colour records: bytes as numbers, after how many there are. They have no edition.
use case_words::records::{ROOM, record_at};
use corkplover::records;
use nclx::ColourLabel;
use request::form;
use std::io;
use text::reading::Words;

// A record that is read.
pub fn on_read(rt: &impl Print, words: Words<'_>) -> io::Result<()> {
    let mut words = words;
    let mut bytes = [0u8; ROOM];
    match record_at(&mut words, &mut bytes) {
        Some(n) if words.text.is_empty() => {
            answer_lines::label_read(rt, records::read_label(&bytes[..n]))
        }
        _ => answer_lines::bad_line(rt),
    }
}

// A label that is written, by its four words.
pub fn on_write(rt: &impl Print, words: Words<'_>) -> io::Result<()> {
    let primaries = words.number(0, form::LARGEST_BYTE);
    let transfer = words.number(1, form::LARGEST_BYTE);
    let matrix = words.number(2, form::LARGEST_BYTE);
    let full = words.number(3, 1);
    match (primaries, transfer, matrix, full) {
        (Some(primaries), Some(transfer), Some(matrix), Some(full)) if !words.has_word(4) => {
            let label = ColourLabel {
                primaries: primaries as u8,
                transfer: transfer as u8,
                matrix: matrix as u8,
                full: full == 1,
            };
            answer_lines::record(rt, &records::write_label(label))
        }
        _ => answer_lines::bad_line(rt),
    }
}

// Who wins, and the part of it that is lent.
fn picked<'a>(rt: &impl Print, container: &'a [u8], stream: &'a [u8]) -> io::Result<()> {
    let mut number = 0;
    let part = records::picked_label(container, stream, &mut number);
    answer_lines::choice(rt, records::pick_label(container, stream), number, part)
}

// One of two records that is picked.
pub fn on_pick(rt: &impl Print, words: Words<'_>) -> io::Result<()> {
    let mut words = words;
    let mut container = [0u8; ROOM];
    let mut stream = [0u8; ROOM];
    let first = record_at(&mut words, &mut container);
    let second = record_at(&mut words, &mut stream);
    match (first, second) {
        (Some(n), Some(m)) if words.text.is_empty() => picked(rt, &container[..n], &stream[..m]),
        _ => answer_lines::bad_line(rt),
    }
}
