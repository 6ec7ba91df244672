// A plan for many pixels: what takes some time to prepare and makes each pixel cheap. It does what the plan of the conversion does.
#![tactic(auto)]

ghost use Rattle.std.specs.Prelude.{◌≡◌, ◌≤◌, IfSome};
ghost use Rattle.levels.specs.Conversion.{most_sample};
ghost use Rattle.levels.specs.Room.{AllReady};
ghost use Rattle.setting.specs.Call.{input_of};
ghost use Rattle.setting.specs.Ready.{Ready};
ghost use Rattle.sample.specs.Depth.{ThreeDepths};
ghost use Rattle.runs.specs.Found.{RunsFound};
ghost use Rattle.plan.specs.Conversion.{convert};
ghost use Rattle.row_plan.specs.RowPlan.{MostRead, RowsOf, RowPlans};

use fixed::words::Words;
use levels::lines::Lines;
use light::scaled::Light;
use plan::Plan;
use quotients::factors::Quotients;
use runs::Runs;
use sample::Depths;
use setting::admission::Served;
use setting::{Call, Way};

#[derive(Clone, Copy)]
pub enum RowPlan {
    // the plan of one pixel
    Plan(Plan),
    // level lines, by numbers that stand for them: a luma matrix forward from full range to full range, forward, and any other
    Quotients(Quotients),
    Light(Light),
    Words(WordPlanes),
}

// The words of three lines, by plane: names and no array, as in `Lines`.
#[derive(Clone, Copy)]
pub struct WordPlanes {
    pub first: Words,
    pub second: Words,
    pub third: Words,
}

// The largest sample that a conversion reads in any plane.
fn most_read(way: Way, d: Depths) -> u16
    requires { ThreeDepths d }
    ensures { MostRead (input_of way) d result }
{
    let tops = d.tops(setting::reads(Call::Convert(way)));
    tops.p0.max(tops.p1).max(tops.p2)
}

// The words of each line, if all have some.
fn words_of(lines: Lines, most: u16) -> Option<WordPlanes>
    requires all_ready { AllReady lines }
    requires most_le_most_sample { most ≤ most_sample }
    ensures { IfSome result (λ w. RowsOf lines most (RowPlan.Words w)) }
{
    let first = fixed::words::words_of(lines.first.line, most)?;
    let second = fixed::words::words_of(lines.second.line, most)?;
    let third = fixed::words::words_of(lines.third.line, most)?;
    Some(WordPlanes {
        first,
        second,
        third,
    })
}

// Level lines by those words, or as they are.
fn word_lines(lines: Lines, most: u16) -> RowPlan
    requires all_ready { AllReady lines }
    requires most_le_most_sample { most ≤ most_sample }
    ensures { RowsOf lines most result }
{
    match words_of(lines, most) {
        Some(words) => RowPlan::Words(words),
        None => RowPlan::Plan(Plan::Lines(lines)),
    }
}

// The lines of a luma matrix, forward.
fn light_lines(r: Runs, lines: Lines, most: u16) -> RowPlan
    requires all_ready { AllReady lines }
    requires most_le_most_sample { most ≤ most_sample }
    requires runs_found { RunsFound lines r × (r.most ≡ most) }
    ensures { RowsOf lines most result }
{
    if let Some(quotients) = quotients::prepare::prepare(r, lines) {
        return RowPlan::Quotients(quotients);
    }
    match light::prepare::prepare(r, lines) {
        Some(light) => RowPlan::Light(light),
        None => word_lines(lines, most),
    }
}

// Level lines by the quickest numbers that stand for them.
fn quick_lines(lines: Lines, most: u16) -> RowPlan
    requires { AllReady lines }
    ensures { RowsOf lines most result }
{
    if levels::MOST_SAMPLE < most {
        return RowPlan::Plan(Plan::Lines(lines));
    }
    match runs::runs_of(lines, most) {
        Some(runs) => light_lines(runs, lines, most),
        None => word_lines(lines, most),
    }
}

// A plan of the conversion.
pub fn plan_rows(way: Way, s: Served) -> RowPlan
    requires { Ready s }
    ensures { RowPlans (convert way s) (input_of way) s.depths result }
{
    let plan = plan::plan_of(way, s);
    let Plan::Lines(lines) = plan else {
        return RowPlan::Plan(plan);
    };
    quick_lines(lines, most_read(way, s.depths))
}
