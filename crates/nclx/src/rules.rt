// The rules on a record, 20 to 23, and the one more that the container is held to.
ghost use Rattle.std.specs.Prelude.{◌≡◌, ◌+◌, ◌<◌, length, Err};
ghost use Rattle.refusal.specs.Rules.{first, numbered};
ghost use Rattle.nclx.specs.Record.{record_bytes, code_at, other_letters, code_above, reserved_bit, record_rules};
ghost use Rattle.nclx.specs.Choice.{unspecified_code, container_rules};

use crate::{FLAG, RECORD_BYTES};
use refusal::Refusal;

// A code of 16 bits, high byte first.
pub fn code_at(bytes: &[u8], at: usize) -> u16
    requires { at + 1 < length bytes.now }
    ensures { result ≡ code_at bytes.now at }
{
    u16::from(bytes[at]) * 256 + u16::from(bytes[at + 1])
}

// Rule 21, where this is true.
#[tactic(auto, unfolding(crate::specs::Record::other_letters))]
fn other_letters(bytes: &[u8]) -> bool
    requires { length bytes.now ≡ record_bytes }
    ensures { result ≡ other_letters bytes.now }
{
    bytes[0] != b'n' || bytes[1] != b'c' || bytes[2] != b'l' || bytes[3] != b'x'
}

// Rule 22, where this is true.
#[tactic(auto, unfolding(crate::specs::Record::code_above))]
fn code_above(bytes: &[u8]) -> bool
    requires { length bytes.now ≡ record_bytes }
    ensures { result ≡ code_above bytes.now }
{
    255 < code_at(bytes, 4) || 255 < code_at(bytes, 6) || 255 < code_at(bytes, 8)
}

// Rule 23, where this is true.
#[tactic(auto, unfolding(crate::specs::Record::reserved_bit))]
fn reserved_bit(bytes: &[u8]) -> bool
    requires { length bytes.now ≡ record_bytes }
    ensures { result ≡ reserved_bit bytes.now }
{
    bytes[10] != 0 && bytes[10] != FLAG
}

// Rule 24, where this is true.
#[tactic(auto, unfolding(crate::specs::Choice::unspecified_code))]
fn unspecified_code(bytes: &[u8]) -> bool
    requires { length bytes.now ≡ record_bytes }
    ensures { result ≡ unspecified_code bytes.now }
{
    code_at(bytes, 4) == 2 || code_at(bytes, 6) == 2 || code_at(bytes, 8) == 2
}

fn refused(number: u8) -> Result<(), Refusal>
    ensures { result ≡ Err (numbered number) }
{
    Err(Refusal::numbered(number))
}

// Rules 20 to 23.
#[tactic(auto, unfolding(crate::specs::Record::wrong_length, refusal::specs::Rules::first))]
pub fn check_record(bytes: &[u8]) -> Result<(), Refusal>
    ensures { result ≡ first (record_rules bytes.now) }
{
    if bytes.len() != RECORD_BYTES {
        return refused(Refusal::RECORD_LENGTH);
    }
    if other_letters(bytes) {
        return refused(Refusal::RECORD_LETTERS);
    }
    if code_above(bytes) {
        return refused(Refusal::RECORD_CODE);
    }
    if reserved_bit(bytes) {
        return refused(Refusal::RECORD_RESERVED_BIT);
    }
    Ok(())
}

// Rules 20 to 24.
pub fn check_container(bytes: &[u8]) -> Result<(), Refusal>
    ensures { result ≡ first (container_rules bytes.now) }
{
    check_record(bytes)?;
    if unspecified_code(bytes) {
        return refused(Refusal::RECORD_UNSPECIFIED);
    }
    Ok(())
}
