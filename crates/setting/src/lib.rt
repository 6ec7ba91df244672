// Settings, and which of rules 12, 1 to 7 and 11 refuses one first.
#![tactic(auto)]

pub mod admission;

ghost use Rattle.std.specs.Prelude.{◌≡◌};
ghost use Rattle.setting.specs.Call.{input_of, reads};

use sample::Side;

// A setting as it is handed in: any numbers at all.
#[derive(Clone, Copy)]
pub struct Setting {
    pub primaries: u8,
    pub transfer: u8,
    pub matrix: u8,
    pub rgb_depth: u8,
    pub y_depth: u8,
    pub c_depth: u8,
    pub rgb_full: bool,
    pub ycc_full: bool,
    // the number of the edition that its codes are read by
    pub edition: u8,
}

// R, G, B to Y, Cb, Cr, or back.
#[derive(Clone, Copy)]
pub enum Way {
    Forward,
    Reverse,
}

// What is asked of the box. Which refusals apply depends on it.
#[derive(Clone, Copy)]
pub enum Call {
    Convert(Way),
    Meter,
    ImageCheck,
}

// The side that a conversion reads.
fn input_of(way: Way) -> Side
    ensures { result ≡ input_of way }
{
    match way {
        Way::Forward => Side::Rgb,
        Way::Reverse => Side::Ycc,
    }
}

// The side that a call reads.
pub fn reads(call: Call) -> Side
    ensures { result ≡ reads call }
{
    match call {
        Call::Convert(way) => input_of(way),
        Call::Meter => Side::Ycc,
        Call::ImageCheck => Side::Ycc,
    }
}
