// The records of a case line: bytes as numbers, after how many there are, read as a plane is.
ghost use Rattle.std.specs.Prelude.{◌≡◌, ◌≤◌, length, IfSome};
ghost use Rattle.tables.specs.Table.{tab};
ghost use Rattle.case_words.specs.Lines.{plane_at, plane_rest, record_room, low_byte, record_over};

use crate::plane;
use text::reading::Words;

// The longest record that there is room for.
pub const ROOM: usize = 300;

// A number as a byte, or 0 where there is none.
fn low_byte(numbers: &[u16], i: usize) -> u8
    ensures { result ≡ low_byte numbers.now i }
{
    if i < numbers.len() {
        (numbers[i] % 256) as u8
    } else {
        0
    }
}

// Numbers as bytes, with zeros behind them. A case has no number above 255.
fn bytes_of(numbers: &[u16], out: &mut [u8])
    ensures { out.new ≡ tab (length out.old) (low_byte numbers.now) }
{
    for i in 0..out.len() {
        out[i] = low_byte(numbers, i);
    }
}

// A record: its length and then its bytes.
pub fn record_at(words: &mut Words<'_>, out: &mut [u8]) -> Option<usize>
    ensures value { result ≡ plane_at words.old.gap words.old.text.now record_room }
    ensures length_le_record_room { IfSome result (λ n. n ≤ record_room) }
    ensures out_after { out.new ≡ record_over words.old.gap words.old.text.now (length out.old) }
    ensures rest { words.new.text.now ≡ plane_rest words.old.gap words.old.text.now record_room }
    ensures gap { words.new.gap ≡ words.old.gap }
{
    let mut numbers = [0u16; ROOM];
    let read = plane(words, &mut numbers);
    bytes_of(&numbers, out);
    read
}
