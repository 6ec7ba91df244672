// The words of a case line that has planes or records. Word 9 and those after it are the sizes; then come the planes, which are long, so they are read forward from where
// they start, and not word by number.
#![tactic(auto)]

ghost use Rattle.std.specs.Prelude.{◌≡◌, ◌≤◌, length, is_some, IfSome};
ghost use Rattle.text.specs.Words.{After, word_of};
ghost use Rattle.text.specs.Numerals.{number_of};
ghost use Rattle.case_words.specs.Lines.{size_word, picture_words, read, plane_at, plane_over, plane_rest, old_plane};

pub mod records;

use request::form;
use request::form::RangeNames;
use setting::Setting;
use text::reading::{Words, number_in};

// The byte between two words of a line.
pub const GAP: u8 = b' ';

// The names of the two ranges.
pub const RANGES: RangeNames<'static> = RangeNames {
    narrow: b"0",
    full: b"1",
};

// How many samples there are that a word may say.
const SAMPLES: u64 = sample::PAST_SAMPLES;

// What a line has before its planes.
#[derive(Clone, Copy)]
pub struct Picture {
    pub setting: Setting,
    pub width: usize,
    pub height: usize,
    pub stride: usize,
}

// The number that comes next, which is left behind.
pub fn next_number(words: &mut Words<'_>, most: u64) -> Option<u64>
    ensures value { result ≡ number_of (word_of words.old.gap words.old.text.now 0) most }
    ensures value_le_most { IfSome result (λ v. v ≤ most) }
    ensures after { After words.old.gap words.old.text.now words.new.text.now }
    ensures gap { words.new.gap ≡ words.old.gap }
{
    let word = words.first();
    *words = words.rest();
    number_in(word, most)
}

// So many samples as there is room for, one after the other. From a word that is none on, zeros are left.
fn samples(words: &mut Words<'_>, out: &mut [u16]) -> Option<()>
    ensures out_after { out.new ≡ (read words.old.gap words.old.text.now (length out.old)).samples }
    ensures all { is_some result ≡ (read words.old.gap words.old.text.now (length out.old)).all }
    ensures rest { words.new.text.now ≡ (read words.old.gap words.old.text.now (length out.old)).rest }
    ensures gap { words.new.gap ≡ words.old.gap }
{
    out.fill(0);
    for i in 0..out.len() {
        out[i] = next_number(words, form::LARGEST_SAMPLE)? as u16;
    }
    Some(())
}

// A plane: its length and then its samples, as many as it says.
pub fn plane(words: &mut Words<'_>, out: &mut [u16]) -> Option<usize>
    ensures value { result ≡ plane_at words.old.gap words.old.text.now (length out.old) }
    ensures length_in_bounds { IfSome result (λ n. n ≤ length out.old) }
    ensures out_after { out.new ≡ plane_over words.old.gap words.old.text.now out.old }
    ensures rest { words.new.text.now ≡ plane_rest words.old.gap words.old.text.now (length out.old) }
    ensures gap { words.new.gap ≡ words.old.gap }
{
    let length = next_number(words, out.len() as u64)? as usize;
    samples(words, &mut out[..length])?;
    Some(length)
}

// Old contents, which must never show.
pub fn old_contents(fill: u64, out: &mut [u16])
    ensures { out.new ≡ old_plane fill (length out.old) }
{
    let mut v = fill % SAMPLES;
    for i in 0..out.len() {
        out[i] = v as u16;
        v = (v + 7919) % SAMPLES;
    }
}

// A width, a height or a stride.
pub fn size_word(words: Words<'_>, n: u8) -> Result<usize, u8>
    ensures { result ≡ size_word words.entry.gap words.entry.text.now n }
{
    Ok(form::number_word(words, n, u64::MAX)? as usize)
}

// Words 1 to 11: the setting, and the sizes that every picture has.
#[tactic(auto, unfolding(crate::specs::Lines::picture_words))]
pub fn picture_words(words: Words<'_>, edition: u8) -> Result<Picture, u8>
    ensures { result ≡ picture_words words.entry.gap words.entry.text.now edition }
{
    Ok(Picture {
        setting: form::setting_words(edition, words, RANGES)?,
        width: size_word(words, 9)?,
        height: size_word(words, 10)?,
        stride: size_word(words, 11)?,
    })
}
