// What a served setting does, decided once: one value with all that a loop over pixels needs.
#![tactic(auto)]

ghost use Rattle.std.specs.Prelude.{◌≡◌};
ghost use Rattle.levels.specs.Conversion.{MatrixFits, LevelDepths};
ghost use Rattle.setting.specs.Ready.{Ready};
ghost use Rattle.plan.specs.Plan.{places_plan, lossy_plan, lossless_plan, ycgco_plan, levels_plan, plan_of};

use codes::matrix::Formulas;
use levels::LevelSetting;
use levels::equations::LevelMatrix;
use levels::lines::Lines;
use sample::Depths;
use setting::Way;
use setting::admission::Served;

#[derive(Clone, Copy)]
pub enum Plan {
    // planes change places
    PlacesForward,
    PlacesReverse,
    LossyForward(Depths),
    LossyReverse(Depths),
    LosslessForward(Depths),
    LosslessReverse(Depths),
    // a level matrix, either way
    Lines(Lines),
}

fn plan_places(way: Way) -> Plan
    ensures { result ≡ places_plan way }
{
    match way {
        Way::Forward => Plan::PlacesForward,
        Way::Reverse => Plan::PlacesReverse,
    }
}

fn plan_lossy(way: Way, d: Depths) -> Plan
    ensures { result ≡ lossy_plan way d }
{
    match way {
        Way::Forward => Plan::LossyForward(d),
        Way::Reverse => Plan::LossyReverse(d),
    }
}

fn plan_lossless(way: Way, d: Depths) -> Plan
    ensures { result ≡ lossless_plan way d }
{
    match way {
        Way::Forward => Plan::LosslessForward(d),
        Way::Reverse => Plan::LosslessReverse(d),
    }
}

// Lossless where chroma is deeper than RGB.
fn plan_ycgco(way: Way, d: Depths) -> Plan
    ensures { result ≡ ycgco_plan way d }
{
    if d.rgb.0 < d.chroma.0 {
        return plan_lossless(way, d);
    }
    plan_lossy(way, d)
}

fn plan_levels(way: Way, m: LevelMatrix, s: LevelSetting) -> Plan
    requires matrix_fits { MatrixFits m }
    requires level_depths { LevelDepths s }
    ensures { result ≡ levels_plan way m s }
{
    match way {
        Way::Forward => Plan::Lines(levels::forward_lines(m.forward, s)),
        Way::Reverse => Plan::Lines(levels::reverse_lines(m.reverse, s)),
    }
}

// The plan of a conversion.
pub fn plan_of(way: Way, s: Served) -> Plan
    requires { Ready s }
    ensures { result ≡ plan_of way s }
{
    match s.formulas {
        Formulas::ChangePlaces => plan_places(way),
        Formulas::YCgCo => plan_ycgco(way, s.depths),
        Formulas::Levels(matrix) => plan_levels(
            way,
            matrix,
            LevelSetting {
                depths: s.depths,
                rgb_full: s.rgb_full,
                ycc_full: s.ycc_full,
            },
        ),
    }
}
