// The table of matrices: which codes are served, and all that is known of each.
ghost use Rattle.std.specs.Prelude.{◌≡◌, ◌+◌, ◌≤◌, ◌<◌};
ghost use Rattle.levels.specs.Equations.{all_parts};
ghost use Rattle.codes.specs.declared.matrix.Matrix.TheVariants.{Served};
ghost use Rattle.codes.specs.Matrix.{changed_places, ycgco, luma_entry, matrix_of};

use crate::edition::Edition;
use levels::equations::LevelMatrix;

// How the samples of a matrix are made.
#[derive(Clone, Copy)]
pub enum Formulas {
    // planes change places (45 to 47)
    ChangePlaces,
    // YCgCo: lossless (55 to 62) where chroma is deeper than RGB, else lossy (48 to 54)
    YCgCo,
    // levels by equations
    Levels(LevelMatrix),
}

// An entry of the table.
#[derive(Clone, Copy)]
pub struct Entry {
    pub formulas: Formulas,
    // the deepest sample
    pub deepest: u8,
    // how many bits Y has more than RGB, and both sides then have one range; or RGB depth and ranges are free
    pub bond: Option<u8>,
    // the most bits that chroma may have more than Y
    pub chroma_bits: u8,
    // how many bits chroma has to have more than RGB for nothing to be lost, if that ever is so
    pub lossless: Option<u8>,
    // whether the meter answers
    pub metered: bool,
}

// What a code means. Those that are not served are labels in their own right (`matrix_label`), so it is no `Result`.
#[derive(Clone, Copy)]
pub enum Matrix {
    Served(Entry),
    Unserved,
    Unspecified,
    Reserved,
}

fn changed_places() -> Matrix
    ensures { result ≡ Served changed_places }
{
    Matrix::Served(Entry {
        formulas: Formulas::ChangePlaces,
        deepest: sample::MOST_DEPTH,
        bond: Some(0),
        chroma_bits: 0,
        lossless: Some(0),
        metered: false,
    })
}

// YCgCo with so many bits more in Y than in RGB, and at most so many more again in chroma.
fn ycgco(y_bits: u8, chroma_bits: u8) -> Matrix
    ensures { result ≡ Served (ycgco y_bits chroma_bits) }
{
    Matrix::Served(Entry {
        formulas: Formulas::YCgCo,
        deepest: sample::MOST_DEPTH,
        bond: Some(y_bits),
        chroma_bits,
        lossless: Some(1),
        metered: false,
    })
}

// A luma matrix by its KR and KB, in ten-thousandths.
fn luma(kr: u64, kb: u64) -> Matrix
    requires { kr + kb < all_parts }
    ensures { result ≡ Served (luma_entry kr kb) }
{
    let matrix = levels::equations::luma(kr, kb);
    Matrix::Served(Entry {
        formulas: Formulas::Levels(matrix),
        deepest: sample::MOST_LEVEL_DEPTH,
        bond: None,
        chroma_bits: 0,
        lossless: None,
        metered: true,
    })
}

// Codes from 15 on, which are each edition's own.
fn added(edition: Edition, code: u8) -> Matrix
    requires { 15 ≤ code }
    ensures { result ≡ matrix_of edition code }
{
    match edition {
        Edition::Of2021 => Matrix::Reserved,
        Edition::Draft => match code {
            15 => ycgco(2, 0),
            16 => ycgco(1, 0),
            _ => Matrix::Reserved,
        },
        Edition::Published => match code {
            15 => Matrix::Unserved,
            16 => ycgco(2, 0),
            17 => ycgco(1, 0),
            _ => Matrix::Reserved,
        },
    }
}

pub fn matrix_of(edition: Edition, code: u8) -> Matrix
    ensures { result ≡ matrix_of edition code }
{
    match code {
        0 => changed_places(),
        1 => luma(2126, 722),
        4 => luma(3000, 1100),
        5..=6 => luma(2990, 1140),
        7 => luma(2120, 870),
        9 => luma(2627, 593),
        8 => ycgco(0, 1),
        10..=14 => Matrix::Unserved,
        15..=17 => added(edition, code),
        2 => Matrix::Unspecified,
        3 | 18..=255 => Matrix::Reserved,
    }
}
