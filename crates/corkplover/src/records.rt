// The colour label of a media file: its 'nclx' record read and written, and which of two records is believed, the container's or the stream's. Any bytes may
// be handed in.
ghost use Rattle.std.specs.Prelude.{◌≡◌};
ghost use Rattle.nclx.specs.Record.{label_read, record_of};
ghost use Rattle.nclx.specs.Choice.{choice, chosen_part, chosen_number};

use nclx::picking::Winner;
use nclx::{ColourLabel, RECORD_BYTES, picking, writing};
use refusal::Refusal;

// Refusals 20 to 23.
pub fn read_label(record: &[u8]) -> Result<ColourLabel, Refusal>
    ensures { result ≡ label_read «record».now }
{
    nclx::read(record)
}

pub fn write_label(label: ColourLabel) -> [u8; RECORD_BYTES]
    ensures { result ≡ record_of label }
{
    writing::write(label)
}

// Who wins. Refusals 20 to 24, all of them of the container.
pub fn pick_label(container: &[u8], stream: &[u8]) -> Result<Winner, Refusal>
    ensures { result ≡ choice container.now stream.now }
{
    picking::pick(container, stream)
}

// The winner's last seven bytes, with 0 for a number; or an empty part, with the number of the refusal.
pub fn picked_label<'a>(container: &'a [u8], stream: &'a [u8], number: &mut u8) -> &'a [u8]
    ensures result_value { result.now ≡ chosen_part (choice container.now stream.now) container.now stream.now }
    ensures number_after { number.new ≡ chosen_number (choice container.now stream.now) }
{
    picking::picked_part(container, stream, number)
}
