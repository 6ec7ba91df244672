// The calls on colour records, for C and for every language that can call C. The crate corkplover_c exports them.
ghost use Rattle.std.specs.Prelude.{◌≡◌};
ghost use Rattle.nclx.specs.Record.{label_read};
ghost use Rattle.nclx.specs.Choice.{choice};
ghost use Rattle.corkplover.specs.RecordPacking.{packed_read, packed_choice, label_from, WrittenAfter};

use crate::record_packing::label_from;
use crate::{packing, record_packing, records};

pub fn corkplover_read_label(record: &[u8]) -> u64
    ensures { result ≡ packed_read (label_read «record».now) }
{
    record_packing::pack_read(records::read_label(record))
}

pub fn corkplover_write_label(
    primaries: u8,
    transfer: u8,
    matrix: u8,
    full: bool,
    out: &mut [u8],
) -> u64
    ensures { WrittenAfter (label_from primaries transfer matrix full) out.old result out.new }
{
    let label = label_from(primaries, transfer, matrix, full);
    packing::pack_done(nclx::writing::write_into(label, out))
}

pub fn corkplover_pick_label(container: &[u8], stream: &[u8]) -> u64
    ensures { result ≡ packed_choice (choice container.now stream.now) }
{
    record_packing::pack_choice(records::pick_label(container, stream))
}
