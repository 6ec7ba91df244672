// A label's answer for a code point of any kind: assigned, unspecified or reserved in an edition, or refusal 12 where that is none.
ghost use Rattle.std.specs.Prelude.{◌≡◌};
ghost use Rattle.corkplover.specs.Answers.{label_answer};

use codes::edition;
use codes::label::{CodeKind, Label};
use refusal::Refusal;

#[tactic(auto, unfolding(crate::specs::Answers::label_answer))]
pub fn label(kind: CodeKind, edition: u8, code: u8) -> Result<Label, Refusal>
    ensures { result ≡ label_answer kind edition code }
{
    let Some(edition) = edition::edition_of(edition) else {
        return Err(Refusal::numbered(Refusal::UNKNOWN_EDITION));
    };
    Ok(codes::label::label_for(kind, edition, code))
}
