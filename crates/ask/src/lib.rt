// Every request is passed on to its entry point, and the answers come back as one type. Samples come with the way that made them, a level as
// its bits.
#![tactic(auto)]

ghost use Rattle.std.specs.Prelude.{◌≡◌};
ghost use Rattle.corkplover.specs.Answers.{label_answer, pixel_answer, source_answer, reading, levels_answer};
ghost use Rattle.ask.specs.Answers.{of_pixel, of_source, of_reading, of_levels, of_label, ask_pixel, answer_to};

use codes::label::CodeKind;
use corkplover::{labels, meters, pixels};
use meter::SampleKind;
use refusal::Refusal;
use request::{Answer, Request};
use sample::Pixel;
use setting::{Call, Setting, Way};

fn convert(way: Way, s: Setting, p: Pixel) -> Result<Pixel, Refusal>
    ensures { result ≡ pixel_answer way s p }
{
    match way {
        Way::Forward => pixels::forward_pixel(s, p),
        Way::Reverse => pixels::reverse_pixel(s, p),
    }
}

fn ask_samples(way: Way, s: Setting, p: Pixel) -> Result<Answer, Refusal>
    ensures { result ≡ of_pixel way (pixel_answer way s p) }
{
    let converted = convert(way, s, p)?;
    Ok(Answer::Samples(way, converted))
}

fn ask_source(s: Setting, p: Pixel) -> Result<Answer, Refusal>
    ensures { result ≡ of_source (source_answer s p) }
{
    let found = pixels::source_pixel(s, p)?;
    Ok(Answer::Source(found))
}

fn ask_sample(kind: SampleKind, s: Setting, v: u16) -> Result<Answer, Refusal>
    ensures { result ≡ of_reading (reading kind s v) }
{
    let level = meters::meter_sample(kind, s, v)?;
    Ok(Answer::Level(level.to_bits()))
}

fn ask_levels(s: Setting, p: Pixel) -> Result<Answer, Refusal>
    ensures { result ≡ of_levels (levels_answer s p) }
{
    let levels = meters::meter_pixel(s, p)?;
    Ok(Answer::Levels(levels.y.to_bits(), levels.cb.to_bits(), levels.cr.to_bits()))
}

fn ask_pixel(call: Call, s: Setting, p: Pixel) -> Result<Answer, Refusal>
    ensures { result ≡ ask_pixel call s p }
{
    match call {
        Call::Convert(way) => ask_samples(way, s, p),
        Call::Meter => ask_levels(s, p),
        Call::ImageCheck => ask_source(s, p),
    }
}

fn ask_label(kind: CodeKind, edition: u8, code: u8) -> Result<Answer, Refusal>
    ensures { result ≡ of_label (label_answer kind edition code) }
{
    let label = labels::label(kind, edition, code)?;
    Ok(Answer::Label(label))
}

#[tactic(auto, unfolding(crate::specs::Answers::answer_to))]
pub fn ask(request: Request) -> Result<Answer, Refusal>
    ensures { result ≡ answer_to request }
{
    match request {
        Request::Pixel(call, s, p) => ask_pixel(call, s, p),
        Request::Sample(kind, s, v) => ask_sample(kind, s, v),
        Request::Label(kind, edition, code) => ask_label(kind, edition, code),
    }
}
