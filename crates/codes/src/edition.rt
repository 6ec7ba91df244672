// The editions of H.273 that a label may have been written by. They differ in their matrix codes.
ghost use Rattle.std.specs.Prelude.{◌≡◌};
ghost use Rattle.codes.specs.Edition.{edition_of};

#[derive(Clone, Copy)]
pub enum Edition {
    // the text of 2021
    Of2021,
    // the draft of the third edition
    Draft,
    // the third edition as it was published
    Published,
}

// The edition of a number. One that was forgotten is 0, and is none. No `TryFrom`: its one error is refusal 12, which a crate above knows.
pub fn edition_of(number: u8) -> Option<Edition>
    ensures { result ≡ edition_of number }
{
    match number {
        1 => Some(Edition::Of2021),
        2 => Some(Edition::Draft),
        3 => Some(Edition::Published),
        0 | 4..=255 => None,
    }
}
