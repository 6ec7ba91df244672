// A label, written: as a value of eleven bytes, and into a buffer.
ghost use Rattle.std.specs.Prelude.{◌≡◌};
ghost use Rattle.refusal.specs.Rules.{first};
ghost use Rattle.nclx.specs.Record.{range_of, record_of, write_rules, written_into};

use crate::{ColourLabel, FLAG, RECORD_BYTES};
use refusal::Refusal;

// The last byte of a record.
fn range_byte(full: bool) -> u8
    ensures { result ≡ range_of full }
{
    if full { FLAG } else { 0 }
}

pub fn write(label: ColourLabel) -> [u8; RECORD_BYTES]
    ensures { result ≡ record_of label }
{
    [
        b'n',
        b'c',
        b'l',
        b'x',
        0,
        label.primaries,
        0,
        label.transfer,
        0,
        label.matrix,
        range_byte(label.full),
    ]
}

// The record, in a buffer of its length. A buffer of any other is refused with 20, and zeroed.
#[tactic(auto, unfolding(refusal::specs::Rules::first, crate::specs::Record::wrong_length, crate::specs::Record::written_into))]
pub fn write_into(label: ColourLabel, out: &mut [u8]) -> Result<(), Refusal>
    ensures value { result ≡ first (write_rules out.old) }
    ensures out_after { out.new ≡ written_into label out.old }
{
    if out.len() != RECORD_BYTES {
        out.fill(0);
        return Err(Refusal::numbered(Refusal::RECORD_LENGTH));
    }
    out.copy_from_slice(&write(label));
    Ok(())
}
