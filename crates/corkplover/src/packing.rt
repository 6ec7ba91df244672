// Settings and answers as one number each, for callers in other languages.
ghost use Rattle.std.specs.Prelude.{◌≡◌};
ghost use Rattle.corkplover.specs.Packing.{packed, packed_label, packed_refusal, packed_pixel, packed_done, level_in, levels_in, packed_image, packed_judgement, wrong_in, setting_in, pixel_from, sizes};

use codes::label::Label;
use judge::Difference;
use meter::PixelLevels;
use refusal::{Place, Refusal};
use rows::paint::Size;
use sample::Pixel;
use setting::Setting;

// Two fields of 8 bits and three of 16.
pub fn pack(number: u8, second: u8, a: u16, b: u16, c: u16) -> u64
    ensures { result ≡ packed number second a b c }
{
    u64::from(number)
        + u64::from(second) * 256
        + u64::from(a) * 65536
        + u64::from(b) * 4294967296
        + u64::from(c) * 281474976710656
}

pub fn pack_refusal(refusal: Refusal) -> u64
    ensures { result ≡ packed_refusal refusal }
{
    let place = refusal.place;
    pack(
        refusal.number,
        place.plane,
        place.row,
        place.column,
        refusal.sample,
    )
}

pub fn pack_pixel(answer: Result<Pixel, Refusal>) -> u64
    ensures { result ≡ packed_pixel answer }
{
    match answer {
        Ok(p) => pack(0, 0, p.p0, p.p1, p.p2),
        Err(refusal) => pack_refusal(refusal),
    }
}

// 0 where nothing was refused. What else the answer has goes where the caller said.
pub fn pack_done<T: Copy>(answer: Result<T, Refusal>) -> u64
    ensures { result ≡ packed_done answer }
{
    match answer {
        Ok(_) => 0,
        Err(refusal) => pack_refusal(refusal),
    }
}

pub fn level_in(answer: Result<f32, Refusal>) -> f32
    ensures { result ≡ level_in answer }
{
    match answer {
        Ok(level) => level,
        Err(_) => 0.0,
    }
}

pub fn levels_in(answer: Result<PixelLevels, Refusal>) -> PixelLevels
    ensures { result ≡ levels_in answer }
{
    match answer {
        Ok(levels) => levels,
        Err(_) => PixelLevels {
            y: 0.0,
            cb: 0.0,
            cr: 0.0,
        },
    }
}

// The setting that a word holds. Bits 50 to 55 are not looked at.
pub fn setting_in(word: u64) -> Setting
    ensures { result ≡ setting_in word }
{
    let [
        primaries,
        transfer,
        matrix,
        rgb_depth,
        y_depth,
        c_depth,
        flags,
        edition,
    ] = word.to_le_bytes();
    Setting {
        primaries,
        transfer,
        matrix,
        rgb_depth,
        y_depth,
        c_depth,
        rgb_full: flags % 2 == 1,
        ycc_full: flags / 2 % 2 == 1,
        edition,
    }
}

// Bits 8 to 15 say yes or none; a none has its row and column where a 10 has them.
pub fn pack_image(answer: Result<Option<Place>, Refusal>) -> u64
    ensures { result ≡ packed_image answer }
{
    match answer {
        Ok(None) => 0,
        Ok(Some(place)) => pack(0, 1, place.row, place.column, 0),
        Err(refusal) => pack_refusal(refusal),
    }
}

// The same of a judgement, whose count stands beside it.
pub fn pack_judgement(answer: Result<Option<Difference>, Refusal>) -> u64
    ensures { result ≡ packed_judgement answer }
{
    match answer {
        Ok(None) => 0,
        Ok(Some(d)) => pack(0, 1, d.first.row, d.first.column, 0),
        Err(refusal) => pack_refusal(refusal),
    }
}

pub fn wrong_in(answer: Result<Option<Difference>, Refusal>) -> u64
    ensures { result ≡ wrong_in answer }
{
    match answer {
        Ok(None) => 0,
        Ok(Some(d)) => d.count,
        Err(_) => 0,
    }
}

// A pixel of three parameters, and sizes of four.
pub fn pixel_from(p0: u16, p1: u16, p2: u16) -> Pixel
    ensures { result ≡ pixel_from p0 p1 p2 }
{
    Pixel { p0, p1, p2 }
}

pub fn size_of(width: usize, height: usize, sourcestride: usize, outputstride: usize) -> Size
    ensures { result ≡ sizes width height sourcestride outputstride }
{
    Size {
        width,
        height,
        input_stride: sourcestride,
        output_stride: outputstride,
    }
}

pub fn pack_label(answer: Result<Label, Refusal>) -> u8
    ensures { result ≡ packed_label answer }
{
    match answer {
        Ok(label) => u8::from(label),
        Err(refusal) => refusal.number,
    }
}
