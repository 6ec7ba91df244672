// What H.273 says of a code point of each kind.
ghost use Rattle.std.specs.Prelude.{◌≡◌};
ghost use Rattle.codes.specs.Label.{label_number, primaries_label, transfer_label, matrix_label, label_for, is_reserved};

use crate::edition::Edition;
use crate::matrix::Matrix;

// The three kinds of code point.
#[derive(Clone, Copy)]
pub enum CodeKind {
    Primaries,
    Transfer,
    Matrix,
}

#[derive(Clone, Copy)]
pub enum Label {
    Assigned,
    Unspecified,
    Reserved,
}

// The number of a label.
impl From<Label> for u8 {
    ghost from_gives = { λ label n. n ≡ label_number label };

    fn from(label: Label) -> u8 {
        match label {
            Label::Assigned => 0,
            Label::Unspecified => 1,
            Label::Reserved => 2,
        }
    }
}

pub fn primaries_label(code: u8) -> Label
    ensures { result ≡ primaries_label code }
{
    match code {
        1 | 4..=12 | 22 => Label::Assigned,
        2 => Label::Unspecified,
        0 | 3 | 13..=21 | 23..=255 => Label::Reserved,
    }
}

pub fn transfer_label(code: u8) -> Label
    ensures { result ≡ transfer_label code }
{
    match code {
        1 | 4..=18 => Label::Assigned,
        2 => Label::Unspecified,
        0 | 3 | 19..=255 => Label::Reserved,
    }
}

fn matrix_label(edition: Edition, code: u8) -> Label
    ensures { result ≡ matrix_label edition code }
{
    match crate::matrix::matrix_of(edition, code) {
        Matrix::Served(_) => Label::Assigned,
        Matrix::Unserved => Label::Assigned,
        Matrix::Unspecified => Label::Unspecified,
        Matrix::Reserved => Label::Reserved,
    }
}

// The label of a code of any kind.
pub fn label_for(kind: CodeKind, edition: Edition, code: u8) -> Label
    ensures { result ≡ label_for kind edition code }
{
    match kind {
        CodeKind::Primaries => primaries_label(code),
        CodeKind::Transfer => transfer_label(code),
        CodeKind::Matrix => matrix_label(edition, code),
    }
}

pub fn is_reserved(label: Label) -> bool
    ensures { result ≡ is_reserved label }
{
    matches!(label, Label::Reserved)
}
