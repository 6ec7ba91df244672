// Who is let in: the rules on a setting, in their order. Past rule 12 only the type of editions is passed on, and past rule 6 only the depth types.
ghost use Rattle.std.specs.Prelude.{◌≡◌, Err};
ghost use Rattle.refusal.specs.Rules.{first, numbered};
ghost use Rattle.codes.specs.Standing.{entry_of};
ghost use Rattle.setting.specs.Agreement.{is_deeper, bonded, deeper_by, agree, keeps, answers};
ghost use Rattle.setting.specs.Rules.{depth_rules, entry_rules, matrix_rules, served_depths, served_by, admitted, setting_admission};

use crate::{Call, Setting};
use codes::matrix::{Entry, Formulas, Matrix};
use refusal::Refusal;
use sample::{ChromaDepth, Depths, LumaDepth, RgbDepth};

// A setting that is not refused.
#[derive(Clone, Copy)]
pub struct Served {
    pub formulas: Formulas,
    pub depths: Depths,
    pub rgb_full: bool,
    pub ycc_full: bool,
}

fn refused(number: u8) -> Result<Served, Refusal>
    ensures { result ≡ Err (numbered number) }
{
    Err(Refusal::numbered(number))
}

// Rule 6, with the depths in their own kinds where it doesn't apply.
#[tactic(auto, unfolding(crate::specs::Rules::served_depths, crate::specs::Agreement::depths_served, sample::specs::Depth::depths_checked))]
fn served_depths(deepest: u8, rgb: u8, luma: u8, chroma: u8) -> Option<Depths>
    ensures { result ≡ served_depths deepest rgb luma chroma }
{
    let depths = Depths::checked(rgb, luma, chroma)?;
    depths.at_most(deepest).then_some(depths)
}

// Whether Y has `added` bits more than RGB.
fn is_deeper(luma: LumaDepth, rgb: RgbDepth, added: u8) -> bool
    ensures { result ≡ is_deeper luma rgb added }
{
    luma.0 as u16 == rgb.0 as u16 + added as u16
}

// Whether chroma is as deep as Y, or deeper by `most` bits at most.
fn deeper_by(most: u8, luma: LumaDepth, chroma: ChromaDepth) -> bool
    ensures { result ≡ deeper_by most luma chroma }
{
    luma.0 <= chroma.0 && chroma.0 as u16 <= luma.0 as u16 + most as u16
}

fn is_bonded(bond: Option<u8>, d: Depths, rgb_full: bool, ycc_full: bool) -> bool
    ensures { result ≡ bonded bond d rgb_full ycc_full }
{
    match bond {
        Some(added) => is_deeper(d.luma, d.rgb, added) && rgb_full == ycc_full,
        None => true,
    }
}

// Rule 7, where this is false.
#[tactic(auto, unfolding(crate::specs::Agreement::agree))]
fn agree(e: Entry, d: Depths, rgb_full: bool, ycc_full: bool) -> bool
    ensures { result ≡ agree e d rgb_full ycc_full }
{
    is_bonded(e.bond, d, rgb_full, ycc_full) && deeper_by(e.chroma_bits, d.luma, d.chroma)
}

fn keeps(lossless: Option<u8>, d: Depths) -> bool
    ensures { result ≡ keeps lossless d }
{
    lossless.is_some_and(|bits| d.rgb.0 as u16 + bits as u16 <= d.chroma.0 as u16)
}

// Rule 11, where this is false.
fn answers(call: Call, e: Entry, d: Depths) -> bool
    ensures { result ≡ answers call e d }
{
    match call {
        Call::Convert(_) => true,
        Call::Meter => e.metered,
        Call::ImageCheck => keeps(e.lossless, d),
    }
}

// Rules 6, 7 and 11.
#[tactic(auto, unfolding(refusal::specs::Rules::first, crate::specs::Rules::served_depths))]
fn admit_depths(call: Call, e: Entry, s: Setting) -> Result<Served, Refusal>
    ensures { result ≡ admitted (first (depth_rules call e s)) (served_by e s) }
{
    let Some(depths) = served_depths(e.deepest, s.rgb_depth, s.y_depth, s.c_depth) else {
        return refused(Refusal::DEPTH_OUTSIDE);
    };
    if !agree(e, depths, s.rgb_full, s.ycc_full) {
        return refused(Refusal::DISAGREEMENT);
    }
    if !answers(call, e, depths) {
        return refused(Refusal::NOT_FOR_THIS_SETTING);
    }
    Ok(Served {
        formulas: e.formulas,
        depths,
        rgb_full: s.rgb_full,
        ycc_full: s.ycc_full,
    })
}

// Rules 4 and 5, and then those on depths.
#[tactic(auto, unfolding(refusal::specs::Rules::first))]
fn admit_entry(call: Call, e: Entry, s: Setting) -> Result<Served, Refusal>
    ensures { result ≡ admitted (first (entry_rules call e s)) (served_by e s) }
{
    if codes::label::is_reserved(codes::label::primaries_label(s.primaries)) {
        return refused(Refusal::RESERVED_PRIMARIES);
    }
    if codes::label::is_reserved(codes::label::transfer_label(s.transfer)) {
        return refused(Refusal::RESERVED_TRANSFER);
    }
    admit_depths(call, e, s)
}

// Rules 1 to 3 on what the code means, and then those on its entry.
#[tactic(auto, unfolding(refusal::specs::Rules::first))]
fn admit_matrix(call: Call, m: Matrix, s: Setting) -> Result<Served, Refusal>
    ensures { result ≡ admitted (first (matrix_rules call m s)) (served_by (entry_of m) s) }
{
    match m {
        Matrix::Reserved => refused(Refusal::RESERVED_MATRIX),
        Matrix::Unspecified => refused(Refusal::UNSPECIFIED_MATRIX),
        Matrix::Unserved => refused(Refusal::UNSERVED_MATRIX),
        Matrix::Served(entry) => admit_entry(call, entry, s),
    }
}

// Rule 12: in an edition that is none no code means anything, and none is looked at.
fn without_edition() -> Result<Served, Refusal>
    ensures { result ≡ Err (numbered 12) }
{
    refused(Refusal::UNKNOWN_EDITION)
}

// The first of the rules on a setting that applies, or the setting in checked kinds.
#[tactic(auto, unfolding(refusal::specs::Rules::first, crate::specs::Rules::setting_admission))]
pub fn admit(call: Call, s: Setting) -> Result<Served, Refusal>
    ensures { result ≡ setting_admission call s }
{
    let Some(edition) = codes::edition::edition_of(s.edition) else {
        return without_edition();
    };
    admit_matrix(call, codes::matrix::matrix_of(edition, s.matrix), s)
}
