// The counter's fixed sentences: how it is asked, what was expected of a word, and what a refusal means.
use request::form::Expected;
use std::{fmt, io};

pub fn usage(rt: &impl Print) -> io::Result<()> {
    println!(rt; "cork: one pixel of the colour converter box\n")?;
    println!(rt; "  cork forward [EDITION] SETTING R G B      RGB to luma and chroma")?;
    println!(rt; "  cork reverse [EDITION] SETTING Y CB CR    luma and chroma to RGB")?;
    println!(rt;
        "  cork source [EDITION] SETTING Y CB CR     has it an RGB source? (lossless settings)"
    )?;
    println!(rt; "  cork meter [EDITION] SETTING Y CB CR      the three levels (luma matrices)")?;
    println!(rt; "  cork meter [EDITION] SETTING y|cb|cr SAMPLE")?;
    println!(rt; "  cork label [EDITION] primaries|transfer|matrix CODE")?;
    println!(rt;
        "  cork label-of FILE                        the colour label of an MP4, MOV or AVIF file"
    )?;
    println!(rt; "  cork help                                 these lines, as without any word\n")?;
    words_of_setting(rt)?;
    statuses(rt)
}

// What stands for EDITION and SETTING.
fn words_of_setting(rt: &impl Print) -> io::Result<()> {
    println!(rt;
        "EDITION is the text of H.273 that the label was written by: 2021, draft or published."
    )?;
    println!(rt;
        "Where none is given, published is meant. Matrix codes differ in them from 15 on.\n"
    )?;
    println!(rt;
        "SETTING is eight words: primaries, transfer and matrix codes (0 to 255), RGB depth,"
    )?;
    println!(rt;
        "Y depth and C depth in bits, then full or narrow for RGB and for YCbCr. For example:\n"
    )?;
    println!(rt; "  cork forward 1 1 8 8 8 9 full full 255 0 0")?;
    println!(rt; "  cork forward draft 1 1 15 8 10 10 full full 255 0 0\n")
}

// What the status says.
fn statuses(rt: &impl Print) -> io::Result<()> {
    println!(rt;
        "Status: 0 for an answer, 1 for a refusal, 2 for words that were not understood."
    )?;
    println!(rt;
        "For a file also: 4 its colour records differ, 5 it has none, 6 an older label without"
    )?;
    println!(rt;
        "a range flag, 7 an ICC profile instead, 8 it can't be opened or read, 9 it is no such"
    )?;
    println!(rt; "file, or damaged.")
}

// The names of the editions.
pub const EDITIONS: &str = "2021, draft or published";

// What was expected of a word, in words.
#[derive(Clone, Copy)]
pub struct InWords(pub Expected);

impl fmt::Display for InWords {
    fn fmt<W: fmt::Write>(&self, f: &mut fmt::Formatter<W>) -> fmt::Result {
        f.write_str(match self.0 {
            Expected::Verb => "forward, reverse, source, meter, label or label-of",
            Expected::Primaries => "the colour primaries, a number from 0 to 255",
            Expected::Transfer => "the transfer characteristics, a number from 0 to 255",
            Expected::Matrix => "the matrix coefficients, a number from 0 to 255",
            Expected::RgbDepth => "the RGB depth in bits, a number from 0 to 255",
            Expected::YDepth => "the Y depth in bits, a number from 0 to 255",
            Expected::CDepth => "the C depth in bits, a number from 0 to 255",
            Expected::RgbRange => "full or narrow, for the RGB side",
            Expected::YccRange => "full or narrow, for the YCbCr side",
            Expected::Red => "the R sample, a number from 0 to 65535",
            Expected::Green => "the G sample, a number from 0 to 65535",
            Expected::Blue => "the B sample, a number from 0 to 65535",
            Expected::Luma => "the Y sample, a number from 0 to 65535",
            Expected::Cb => "the Cb sample, a number from 0 to 65535",
            Expected::Cr => "the Cr sample, a number from 0 to 65535",
            Expected::KindOrLuma => "y, cb or cr, or the Y sample from 0 to 65535",
            Expected::CodeKind => "primaries, transfer or matrix",
            Expected::Code => "a code, a number from 0 to 255",
            Expected::NoMore => "no more words",
        })
    }
}

// What may be wrong with a code that the editions do not have in common.
const OLD_LABEL: &str = ", or name the edition of an old label";

// What a refusal means, and what to do about it.
pub fn meaning(rt: &impl Print, n: u8) -> io::Result<()> {
    match n {
        1 => print!(rt;
            "this matrix code is reserved in this edition; use the code of your material{OLD_LABEL}"
        ),
        2 => print!(rt; "the matrix is unspecified; name the real one"),
        3 => print!(rt;
            "this matrix is known but not served; choose another or another box{OLD_LABEL}"
        ),
        4 => print!(rt; "this primaries code is reserved; correct the label"),
        5 => print!(rt; "this transfer code is reserved; correct the label"),
        6 => print!(rt; "a depth is outside 8 to 16 bits, or above 12 with a luma matrix"),
        7 => print!(rt;
            "depths or ranges do not agree with this matrix; see the rules for what it asks{OLD_LABEL}"
        ),
        _ => meaning_past_settings(rt, n),
    }
}

// The same of the numbers that no setting gets.
fn meaning_past_settings(rt: &impl Print, n: u8) -> io::Result<()> {
    match n {
        8 => print!(rt;
            "width or height is outside 1 to 8192, or a stride is below the width or above 16384"
        ),
        9 => print!(rt; "a plane is too short for its size and stride"),
        10 => print!(rt; "a sample is too large for its depth"),
        11 => print!(rt; "the meter needs a luma matrix, and the source check a lossless setting"),
        12 => print!(rt; "there is no such edition; name 2021, draft or published"),
        20 => print!(rt; "the colour record is not 11 bytes long; write the label anew"),
        21 => print!(rt; "the colour record does not begin with nclx; write the label anew"),
        22 => print!(rt; "a code in the colour record is above 255; correct the label"),
        23 => print!(rt;
            "a reserved bit of the colour record is set; clear all below the full-range flag"
        ),
        24 => print!(rt;
            "the container leaves a code unspecified and the stream has no good record; name the code in one of them"
        ),
        _ => print!(rt; "this number has no words here"),
    }
}
