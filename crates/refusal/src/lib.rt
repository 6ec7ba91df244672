// The one refusal type of every call: a number, and where that is 10 the sample, by its place and as it was found.
#![tactic(auto)]

ghost use Rattle.std.specs.Prelude.{◌≡◌};
ghost use Rattle.refusal.specs.Rules.{at, numbered, bad_at};

// Where a sample stands: its plane, row and column, counted from 0.
#[derive(Clone, Copy)]
pub struct Place {
    pub plane: u8,
    pub row: u16,
    pub column: u16,
}

impl Place {
    // That of a pixel, which has its row and column in each plane and is named by the first.
    pub fn of_pixel(row: u16, column: u16) -> Place
        ensures { result ≡ at 0 row column }
    {
        Place {
            plane: 0,
            row,
            column,
        }
    }
}

#[derive(Clone, Copy)]
pub struct Refusal {
    // the rules' own number, by which their lists (`rule`, specs/Rules.antt) and callers in C go: an enum would be turned back into it at each of these
    pub number: u8,
    pub place: Place,
    // what stands there
    pub sample: u16,
}

impl Refusal {
    pub const RESERVED_MATRIX: u8 = 1;

    pub const UNSPECIFIED_MATRIX: u8 = 2;

    pub const UNSERVED_MATRIX: u8 = 3;

    pub const RESERVED_PRIMARIES: u8 = 4;

    pub const RESERVED_TRANSFER: u8 = 5;

    pub const DEPTH_OUTSIDE: u8 = 6;

    pub const DISAGREEMENT: u8 = 7;

    pub const SIZE_OUTSIDE: u8 = 8;

    pub const PLANE_SHORT: u8 = 9;

    pub const SAMPLE_BEYOND_DEPTH: u8 = 10;

    pub const NOT_FOR_THIS_SETTING: u8 = 11;

    pub const UNKNOWN_EDITION: u8 = 12;

    pub const RECORD_LENGTH: u8 = 20;

    pub const RECORD_LETTERS: u8 = 21;

    pub const RECORD_CODE: u8 = 22;

    pub const RECORD_RESERVED_BIT: u8 = 23;

    pub const RECORD_UNSPECIFIED: u8 = 24;

    // A refusal that names no sample.
    pub fn numbered(number: u8) -> Refusal
        ensures { result ≡ numbered number }
    {
        let place = Place {
            plane: 0,
            row: 0,
            column: 0,
        };
        Refusal {
            number,
            place,
            sample: 0,
        }
    }

    // Refusal 10, with the place of the sample and the sample.
    pub fn bad_at(place: Place, sample: u16) -> Refusal
        ensures { result ≡ bad_at place sample }
    {
        Refusal {
            number: Self::SAMPLE_BEYOND_DEPTH,
            place,
            sample,
        }
    }
}
