// The colour label of a media file: the 'nclx' record of ISO/IEC 14496-12, read, written, and chosen of two. Eleven bytes: the four letters, three
// codes of 16 bits, high byte first, and a byte whose highest bit is the full-range flag.
#![tactic(auto)]

ghost use Rattle.std.specs.Prelude.{◌≡◌};
ghost use Rattle.nclx.specs.Record.{Sound, label_in, label_read};

pub mod picking;
mod rules;
pub mod writing;

use crate::rules::{check_record, code_at};
use refusal::Refusal;

// How long a record is.
pub const RECORD_BYTES: usize = 11;

// The full-range flag in the last byte, in which nothing else may be set.
const FLAG: u8 = 128;

#[derive(Clone, Copy)]
pub struct ColourLabel {
    pub primaries: u8,
    pub transfer: u8,
    pub matrix: u8,
    pub full: bool,
}

// What a record says that is well formed.
fn label_in(bytes: &[u8]) -> ColourLabel
    requires { Sound bytes.now }
    ensures { result ≡ label_in bytes.now }
{
    ColourLabel {
        primaries: code_at(bytes, 4) as u8,
        transfer: code_at(bytes, 6) as u8,
        matrix: code_at(bytes, 8) as u8,
        full: bytes[10] == FLAG,
    }
}

pub fn read(bytes: &[u8]) -> Result<ColourLabel, Refusal>
    ensures { result ≡ label_read bytes.now }
{
    check_record(bytes)?;
    Ok(label_in(bytes))
}
