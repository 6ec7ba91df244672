// Reading the words of a request. Words 1 to 8 are the setting, and the samples follow it. Who asks has read what stands before them, and says
// which edition is meant, which byte stands between words, and what the two ranges are called.
ghost use Rattle.std.specs.Prelude.{◌≡◌, ◌≤◌, ◌<◌, IfOk};
ghost use Rattle.request.specs.Form.{number_word, range_word, end_of_words, setting_words, pixel_words, pixel_read, sample_read, label_read, largest_byte, largest_sample, expected_with, expected_before, expected_at, expected_sample, expected_alone, expected_code, pixel_form, sample_form, label_form};

use crate::Request;
use codes::label::CodeKind;
use meter::SampleKind;
use sample::Pixel;
use setting::{Call, Setting, Way};
use text::reading::Words;

// What can be expected of a word.
#[derive(Clone, Copy, PartialEq, Eq)]
pub enum Expected {
    Verb,
    Primaries,
    Transfer,
    Matrix,
    RgbDepth,
    YDepth,
    CDepth,
    RgbRange,
    YccRange,
    Red,
    Green,
    Blue,
    Luma,
    Cb,
    Cr,
    KindOrLuma,
    CodeKind,
    Code,
    NoMore,
}

// The first word that isn't what was expected there, and what was.
#[derive(Clone, Copy)]
pub struct Fault {
    pub word: u8,
    pub expected: Expected,
}

// What the two ranges are called.
#[derive(Clone, Copy)]
pub struct RangeNames<'a> {
    pub narrow: &'a [u8],
    pub full: &'a [u8],
}

// The largest code or depth that a word may say, and the largest sample.
pub const LARGEST_BYTE: u64 = u8::MAX as u64;

pub const LARGEST_SAMPLE: u64 = u16::MAX as u64;

// Word n as a number from 0 to `most`, or n. So it is with all words below: a word that isn't what was expected is answered by its number.
pub fn number_word(words: Words<'_>, n: u8, most: u64) -> Result<u64, u8>
    ensures value { result ≡ number_word words.entry.gap words.entry.text.now n most }
    ensures value_le_most { IfOk result (λ v. v ≤ most) }
{
    words.number(n, most).ok_or(n)
}

fn byte_word(words: Words<'_>, n: u8) -> Result<u8, u8>
    ensures { result ≡ number_word words.entry.gap words.entry.text.now n largest_byte }
{
    Ok(number_word(words, n, LARGEST_BYTE)? as u8)
}

fn sample_word(words: Words<'_>, n: u8) -> Result<u16, u8>
    ensures { result ≡ number_word words.entry.gap words.entry.text.now n largest_sample }
{
    Ok(number_word(words, n, LARGEST_SAMPLE)? as u16)
}

// Word n as a range's name: whether it is full.
#[tactic(auto, using(text::proofs::WordLaws::place_of_two))]
fn range_word(words: Words<'_>, n: u8, ranges: RangeNames<'_>) -> Result<bool, u8>
    ensures { result ≡ range_word words.entry.gap words.entry.text.now n ranges.entry.narrow.now ranges.entry.full.now }
{
    let word = words.word(n);
    if word == ranges.narrow {
        Ok(false)
    } else if word == ranges.full {
        Ok(true)
    } else {
        Err(n)
    }
}

// The words must have ended before word n.
fn end_of_words(words: Words<'_>, n: u8) -> Result<(), u8>
    ensures { result ≡ end_of_words words.entry.gap words.entry.text.now n }
{
    if words.has_word(n) { Err(n) } else { Ok(()) }
}

#[tactic(auto, unfolding(crate::specs::Form::setting_words))]
pub fn setting_words(edition: u8, words: Words<'_>, ranges: RangeNames<'_>) -> Result<Setting, u8>
    ensures { result ≡ setting_words edition words.entry.gap words.entry.text.now ranges.entry.narrow.now ranges.entry.full.now }
{
    Ok(Setting {
        primaries: byte_word(words, 1)?,
        transfer: byte_word(words, 2)?,
        matrix: byte_word(words, 3)?,
        rgb_depth: byte_word(words, 4)?,
        y_depth: byte_word(words, 5)?,
        c_depth: byte_word(words, 6)?,
        rgb_full: range_word(words, 7, ranges)?,
        ycc_full: range_word(words, 8, ranges)?,
        edition,
    })
}

#[tactic(auto, unfolding(crate::specs::Form::pixel_words))]
fn pixel_words(words: Words<'_>) -> Result<Pixel, u8>
    ensures { result ≡ pixel_words words.entry.gap words.entry.text.now }
{
    Ok(Pixel {
        p0: sample_word(words, 9)?,
        p1: sample_word(words, 10)?,
        p2: sample_word(words, 11)?,
    })
}

// What was expected of a word where these are words 9 to 11.
fn expected_with(a: Expected, b: Expected, c: Expected, n: u8) -> Expected
    ensures { result ≡ expected_with a b c n }
{
    let words = [
        Expected::Verb,
        Expected::Primaries,
        Expected::Transfer,
        Expected::Matrix,
        Expected::RgbDepth,
        Expected::YDepth,
        Expected::CDepth,
        Expected::RgbRange,
        Expected::YccRange,
        a,
        b,
        c,
    ];
    words
        .get(usize::from(n))
        .copied()
        .unwrap_or(Expected::NoMore)
}

// What was expected of a word where the samples are those that a conversion reads.
fn expected_before(way: Way, n: u8) -> Expected
    ensures { result ≡ expected_before way n }
{
    match way {
        Way::Forward => expected_with(Expected::Red, Expected::Green, Expected::Blue, n),
        Way::Reverse => expected_with(Expected::Luma, Expected::Cb, Expected::Cr, n),
    }
}

// What was expected of a word of a pixel's request.
fn expected_at(call: Call, n: u8) -> Expected
    ensures { result ≡ expected_at call n }
{
    match call {
        Call::Convert(way) => expected_before(way, n),
        Call::Meter => expected_with(Expected::KindOrLuma, Expected::Cb, Expected::Cr, n),
        Call::ImageCheck => expected_before(Way::Reverse, n),
    }
}

fn expected_sample(kind: SampleKind) -> Expected
    ensures { result ≡ expected_sample kind }
{
    match kind {
        SampleKind::Y => Expected::Luma,
        SampleKind::Cb => Expected::Cb,
        SampleKind::Cr => Expected::Cr,
    }
}

// What was expected of a word of a lone sample's request, where the sample is word n.
fn expected_alone(kind: SampleKind, n: u8, word: u8) -> Expected
    ensures { result ≡ expected_alone kind n word }
{
    if word == n {
        expected_sample(kind)
    } else {
        expected_with(Expected::NoMore, Expected::NoMore, Expected::NoMore, word)
    }
}

// A setting and three samples.
fn pixel_read(
    call: Call,
    edition: u8,
    words: Words<'_>,
    ranges: RangeNames<'_>,
) -> Result<Request, u8>
    ensures { result ≡ pixel_read call edition words.entry.gap words.entry.text.now ranges.entry.narrow.now ranges.entry.full.now }
{
    let setting = setting_words(edition, words, ranges)?;
    let pixel = pixel_words(words)?;
    end_of_words(words, 12)?;
    Ok(Request::Pixel(call, setting, pixel))
}

// A setting and one sample, which is word n.
fn sample_read(
    kind: SampleKind,
    edition: u8,
    words: Words<'_>,
    ranges: RangeNames<'_>,
    n: u8,
) -> Result<Request, u8>
    requires { n < 254 }
    ensures { result ≡ sample_read kind edition words.entry.gap words.entry.text.now ranges.entry.narrow.now ranges.entry.full.now n }
{
    let setting = setting_words(edition, words, ranges)?;
    let value = sample_word(words, n)?;
    end_of_words(words, n + 1)?;
    Ok(Request::Sample(kind, setting, value))
}

// One code, which is word n.
fn label_read(kind: CodeKind, edition: u8, words: Words<'_>, n: u8) -> Result<Request, u8>
    requires { n < 254 }
    ensures { result ≡ label_read kind edition words.entry.gap words.entry.text.now n }
{
    let code = byte_word(words, n)?;
    end_of_words(words, n + 1)?;
    Ok(Request::Label(kind, edition, code))
}

// A request about a pixel.
pub fn pixel_form(
    call: Call,
    edition: u8,
    words: Words<'_>,
    ranges: RangeNames<'_>,
) -> Result<Request, Fault>
    ensures { result ≡ pixel_form call edition words.entry.gap words.entry.text.now ranges.entry.narrow.now ranges.entry.full.now }
{
    pixel_read(call, edition, words, ranges).map_err(|word| Fault {
        word,
        expected: expected_at(call, word),
    })
}

// A request about one sample, which is word n.
pub fn sample_form(
    kind: SampleKind,
    edition: u8,
    words: Words<'_>,
    ranges: RangeNames<'_>,
    n: u8,
) -> Result<Request, Fault>
    requires { n < 254 }
    ensures { result ≡ sample_form kind edition words.entry.gap words.entry.text.now ranges.entry.narrow.now ranges.entry.full.now n }
{
    sample_read(kind, edition, words, ranges, n).map_err(|word| Fault {
        word,
        expected: expected_alone(kind, n, word),
    })
}

// A request about one code, which is word n.
pub fn label_form(kind: CodeKind, edition: u8, words: Words<'_>, n: u8) -> Result<Request, Fault>
    requires { n < 254 }
    ensures { result ≡ label_form kind edition words.entry.gap words.entry.text.now n }
{
    label_read(kind, edition, words, n).map_err(|word| Fault {
        word,
        expected: if word == n {
            Expected::Code
        } else {
            Expected::NoMore
        },
    })
}
