// Requests: what can be asked of the box about a pixel, a sample or a code, and what can be answered. The box itself is not known here.
#![tactic(auto)]

pub mod form;

use codes::label::{CodeKind, Label};
use meter::SampleKind;
use sample::Pixel;
use setting::{Call, Setting, Way};

#[derive(Clone, Copy)]
pub enum Request {
    // convert a pixel, check it for a source, or meter it
    Pixel(Call, Setting, Pixel),
    // meter one sample
    Sample(SampleKind, Setting, u16),
    // ask for the label that an edition gives a code, by their numbers in this order
    Label(CodeKind, u8, u8),
}

// What is answered, where nothing is refused. Samples come with the way that made them, a level as its bits.
#[derive(Clone, Copy)]
pub enum Answer {
    Samples(Way, Pixel),
    Source(bool),
    Level(u32),
    Levels(u32, u32, u32),
    Label(Label),
}
