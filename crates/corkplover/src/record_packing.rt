// The answers of the calls on colour records, as one number each.
ghost use Rattle.std.specs.Prelude.{◌≡◌, Ok};
ghost use Rattle.corkplover.specs.RecordPacking.{packed_read, packed_choice, label_from};

use crate::packing::{pack, pack_refusal};
use nclx::ColourLabel;
use nclx::picking::Winner;
use refusal::Refusal;

fn pack_label(label: ColourLabel) -> u64
    ensures { result ≡ packed_read (Ok label) }
{
    pack(
        0,
        u8::from(label.full),
        u16::from(label.primaries),
        u16::from(label.transfer),
        u16::from(label.matrix),
    )
}

pub fn pack_read(answer: Result<ColourLabel, Refusal>) -> u64
    ensures { result ≡ packed_read answer }
{
    match answer {
        Ok(label) => pack_label(label),
        Err(refusal) => pack_refusal(refusal),
    }
}

pub fn pack_choice(answer: Result<Winner, Refusal>) -> u64
    ensures { result ≡ packed_choice answer }
{
    match answer {
        Ok(Winner::Container) => 0,
        Ok(Winner::Stream) => pack(0, 1, 0, 0, 0),
        Err(refusal) => pack_refusal(refusal),
    }
}

// A label of four parameters.
pub fn label_from(primaries: u8, transfer: u8, matrix: u8, full: bool) -> ColourLabel
    ensures { result ≡ label_from primaries transfer matrix full }
{
    ColourLabel {
        primaries,
        transfer,
        matrix,
        full,
    }
}
