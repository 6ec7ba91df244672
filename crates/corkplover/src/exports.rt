// The calls for C and for every language that can call C: numbered numbers and slices. A setting is one number, and so is an answer
// (specs/Packing.antt). The crate corkplover_c exports them.
ghost use Rattle.std.specs.Prelude.{◌≡◌};
ghost use Rattle.codes.specs.declared.label.CodeKind.TheVariants.{Primaries, Transfer, Matrix};
ghost use Rattle.setting.specs.declared.Way.TheVariants.{Forward, Reverse};
ghost use Rattle.meter.specs.declared.SampleKind.TheVariants.{Y, Cb, Cr};
ghost use Rattle.corkplover.specs.Answers.{label_answer, pixel_answer};
ghost use Rattle.corkplover.specs.Packing.{setting_in, pixel_from, packed_label, packed_pixel};
ghost use Rattle.corkplover.specs.After.{ReadingAfter, LevelsAfter};

use crate::packing::{pixel_from, setting_in};
use crate::{labels, meters, packing, pixels};
use codes::label::CodeKind;
use meter::SampleKind;

pub fn corkplover_primaries_label(edition: u8, code: u8) -> u8
    ensures { result ≡ packed_label (label_answer Primaries edition code) }
{
    packing::pack_label(labels::label(CodeKind::Primaries, edition, code))
}

pub fn corkplover_transfer_label(edition: u8, code: u8) -> u8
    ensures { result ≡ packed_label (label_answer Transfer edition code) }
{
    packing::pack_label(labels::label(CodeKind::Transfer, edition, code))
}

pub fn corkplover_matrix_label(edition: u8, code: u8) -> u8
    ensures { result ≡ packed_label (label_answer Matrix edition code) }
{
    packing::pack_label(labels::label(CodeKind::Matrix, edition, code))
}

pub fn corkplover_forward_pixel(setting: u64, r: u16, g: u16, b: u16) -> u64
    ensures { result ≡ packed_pixel (pixel_answer Forward (setting_in setting) (pixel_from r g b)) }
{
    packing::pack_pixel(pixels::forward_pixel(setting_in(setting), pixel_from(r, g, b)))
}

pub fn corkplover_reverse_pixel(setting: u64, y: u16, cb: u16, cr: u16) -> u64
    ensures { result ≡ packed_pixel (pixel_answer Reverse (setting_in setting) (pixel_from y cb cr)) }
{
    packing::pack_pixel(pixels::reverse_pixel(setting_in(setting), pixel_from(y, cb, cr)))
}

// One sample's level, which goes where the caller said.
fn leave_reading(kind: SampleKind, setting: u64, v: u16, level: &mut f32) -> u64
    ensures { ReadingAfter kind (setting_in setting) v result level.new }
{
    let answer = meters::meter_sample(kind, setting_in(setting), v);
    *level = packing::level_in(answer);
    packing::pack_done(answer)
}

pub fn corkplover_meter_y(setting: u64, v: u16, level: &mut f32) -> u64
    ensures { ReadingAfter Y (setting_in setting) v result level.new }
{
    leave_reading(SampleKind::Y, setting, v, level)
}

pub fn corkplover_meter_cb(setting: u64, v: u16, level: &mut f32) -> u64
    ensures { ReadingAfter Cb (setting_in setting) v result level.new }
{
    leave_reading(SampleKind::Cb, setting, v, level)
}

pub fn corkplover_meter_cr(setting: u64, v: u16, level: &mut f32) -> u64
    ensures { ReadingAfter Cr (setting_in setting) v result level.new }
{
    leave_reading(SampleKind::Cr, setting, v, level)
}

pub fn corkplover_meter_pixel(
    setting: u64,
    y: u16,
    cb: u16,
    cr: u16,
    ylevel: &mut f32,
    cblevel: &mut f32,
    crlevel: &mut f32,
) -> u64
    ensures { LevelsAfter (setting_in setting) (pixel_from y cb cr) result ylevel.new cblevel.new crlevel.new }
{
    let answer = meters::meter_pixel(setting_in(setting), pixel_from(y, cb, cr));
    let levels = packing::levels_in(answer);
    *ylevel = levels.y;
    *cblevel = levels.cb;
    *crlevel = levels.cr;
    packing::pack_done(answer)
}
