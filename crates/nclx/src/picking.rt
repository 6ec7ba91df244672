// Two records, the container's and the stream's: which of them wins, and the part of it that is lent on.
ghost use Rattle.std.specs.Prelude.{◌≡◌, ◌≤◌, length};
ghost use Rattle.nclx.specs.Choice.{choice, part_bytes, last_seven, chosen_part, chosen_number};

use crate::rules::{check_container, check_record};
use refusal::Refusal;

// How long the part is that has the codes and the flag.
const PART_BYTES: usize = 7;

// The record that is believed.
#[derive(Clone, Copy)]
pub enum Winner {
    Container,
    Stream,
}

#[tactic(auto, unfolding(crate::specs::Choice::choice))]
pub fn pick(container: &[u8], stream: &[u8]) -> Result<Winner, Refusal>
    ensures { result ≡ choice container.now stream.now }
{
    let Err(refusal) = check_container(container) else {
        return Ok(Winner::Container);
    };
    match check_record(stream) {
        Ok(()) => Ok(Winner::Stream),
        Err(_) => Err(refusal),
    }
}

// The end of a record, where the codes and the flag stand.
fn last_seven(bytes: &[u8]) -> &[u8]
    requires { part_bytes ≤ length bytes.now }
    ensures { result.now ≡ last_seven bytes.now }
{
    &bytes[bytes.len() - PART_BYTES..]
}

// The winner's last seven bytes, and 0; or nothing, and the refusal's number. The number stands beside the part since `LendsPart` (promises/specs/Records.antt)
// speaks of both.
pub fn picked_part<'a>(container: &'a [u8], stream: &'a [u8], number: &mut u8) -> &'a [u8]
    ensures result_value { result.now ≡ chosen_part (choice container.now stream.now) container.now stream.now }
    ensures number_after { number.new ≡ chosen_number (choice container.now stream.now) }
{
    *number = 0;
    match pick(container, stream) {
        Ok(Winner::Container) => last_seven(container),
        Ok(Winner::Stream) => last_seven(stream),
        Err(refusal) => {
            *number = refusal.number;
            &container[..0]
        }
    }
}
