// The calls on colour records, for C: each is the call of the same name in corkplover/src/record_exports.rt, with its clauses.
ghost use Rattle.std.specs.Prelude.{◌≡◌};
ghost use Rattle.nclx.specs.Record.{label_read};
ghost use Rattle.nclx.specs.Choice.{choice};
ghost use Rattle.corkplover.specs.RecordPacking.{packed_read, packed_choice, label_from, WrittenAfter};

use corkplover::record_exports;

// The label that a colour record says, or why it is refused.
#[unsafe(no_mangle)]
pub extern "C" fn corkplover_read_label(record: &[u8]) -> u64
    ensures { result ≡ packed_read (label_read «record».now) }
{
    record_exports::corkplover_read_label(record)
}

// A label, written into a buffer as a colour record.
#[unsafe(no_mangle)]
pub extern "C" fn corkplover_write_label(
    primaries: u8,
    transfer: u8,
    matrix: u8,
    full: bool,
    out: &mut [u8],
) -> u64
    ensures { WrittenAfter (label_from primaries transfer matrix full) out.old result out.new }
{
    record_exports::corkplover_write_label(primaries, transfer, matrix, full, out)
}

// Which of two colour records counts, and its label.
#[unsafe(no_mangle)]
pub extern "C" fn corkplover_pick_label(container: &[u8], stream: &[u8]) -> u64
    ensures { result ≡ packed_choice (choice container.now stream.now) }
{
    record_exports::corkplover_pick_label(container, stream)
}
