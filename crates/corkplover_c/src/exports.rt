// The calls for numbers, for C: each is the call of the same name in corkplover/src/exports.rt, with its clauses.
ghost use Rattle.std.specs.Prelude.{◌≡◌};
ghost use Rattle.codes.specs.declared.label.CodeKind.TheVariants.{Primaries, Transfer, Matrix};
ghost use Rattle.setting.specs.declared.Way.TheVariants.{Forward, Reverse};
ghost use Rattle.meter.specs.declared.SampleKind.TheVariants.{Y, Cb, Cr};
ghost use Rattle.corkplover.specs.Answers.{label_answer, pixel_answer};
ghost use Rattle.corkplover.specs.Packing.{setting_in, pixel_from, packed_label, packed_pixel};
ghost use Rattle.corkplover.specs.After.{ReadingAfter, LevelsAfter};

use corkplover::exports;

// Whether a code of colour primaries is assigned in an edition.
#[unsafe(no_mangle)]
pub extern "C" fn corkplover_primaries_label(edition: u8, code: u8) -> u8
    ensures { result ≡ packed_label (label_answer Primaries edition code) }
{
    exports::corkplover_primaries_label(edition, code)
}

// Whether a code of transfer characteristics is assigned in an edition.
#[unsafe(no_mangle)]
pub extern "C" fn corkplover_transfer_label(edition: u8, code: u8) -> u8
    ensures { result ≡ packed_label (label_answer Transfer edition code) }
{
    exports::corkplover_transfer_label(edition, code)
}

// Whether a code of matrix coefficients is assigned in an edition.
#[unsafe(no_mangle)]
pub extern "C" fn corkplover_matrix_label(edition: u8, code: u8) -> u8
    ensures { result ≡ packed_label (label_answer Matrix edition code) }
{
    exports::corkplover_matrix_label(edition, code)
}

// One pixel from R, G, B, in one number.
#[unsafe(no_mangle)]
pub extern "C" fn corkplover_forward_pixel(setting: u64, r: u16, g: u16, b: u16) -> u64
    ensures { result ≡ packed_pixel (pixel_answer Forward (setting_in setting) (pixel_from r g b)) }
{
    exports::corkplover_forward_pixel(setting, r, g, b)
}

// One pixel back to R, G, B, in one number.
#[unsafe(no_mangle)]
pub extern "C" fn corkplover_reverse_pixel(setting: u64, y: u16, cb: u16, cr: u16) -> u64
    ensures { result ≡ packed_pixel (pixel_answer Reverse (setting_in setting) (pixel_from y cb cr)) }
{
    exports::corkplover_reverse_pixel(setting, y, cb, cr)
}

// The level of one Y sample, which goes where the caller said.
#[unsafe(no_mangle)]
pub extern "C" fn corkplover_meter_y(setting: u64, v: u16, level: &mut f32) -> u64
    ensures { ReadingAfter Y (setting_in setting) v result level.new }
{
    exports::corkplover_meter_y(setting, v, level)
}

// The level of one Cb sample, which goes where the caller said.
#[unsafe(no_mangle)]
pub extern "C" fn corkplover_meter_cb(setting: u64, v: u16, level: &mut f32) -> u64
    ensures { ReadingAfter Cb (setting_in setting) v result level.new }
{
    exports::corkplover_meter_cb(setting, v, level)
}

// The level of one Cr sample, which goes where the caller said.
#[unsafe(no_mangle)]
pub extern "C" fn corkplover_meter_cr(setting: u64, v: u16, level: &mut f32) -> u64
    ensures { ReadingAfter Cr (setting_in setting) v result level.new }
{
    exports::corkplover_meter_cr(setting, v, level)
}

// The levels of one pixel, which go where the caller said.
#[unsafe(no_mangle)]
pub extern "C" fn corkplover_meter_pixel(
    setting: u64,
    y: u16,
    cb: u16,
    cr: u16,
    ylevel: &mut f32,
    cblevel: &mut f32,
    crlevel: &mut f32,
) -> u64
    ensures { LevelsAfter (setting_in setting) (pixel_from y cb cr) result ylevel.new cblevel.new crlevel.new }
{
    exports::corkplover_meter_pixel(setting, y, cb, cr, ylevel, cblevel, crlevel)
}
