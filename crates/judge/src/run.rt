// Runs of pixels that lie side by side in their planes: how many of the claimed are wrong, and the first that is. What the source comes to is put
// into rows of this module's own, a part at a time, and compared there: nothing that is lent is written to.
ghost use Rattle.std.specs.Prelude.{◌≡◌, ◌+◌, ◌≤◌, length};
ghost use Rattle.planes.specs.Three.{three, held, LongThree};
ghost use Rattle.row_plan.specs.RowPlan.{row_planned, RowRoomy};
ghost use Rattle.compare.specs.Compare.{most_part};
ghost use Rattle.rows.specs.Paint.{TakesUpTo};
ghost use Rattle.judge.specs.Judge.{most_run, PartTold, RunTold};

use compare::{Tally, compare_part};
use planes::three::Planes;
use row_plan::RowPlan;
use rows::paint::paint_row;
use sample::Pixel;

// How many pixels are converted before they are compared: few enough to stay in the nearest cache, and to be counted in 16 bits.
const PART: usize = 512;

// Room for a part of a plane.
fn room() -> [u16; PART]
    ensures { length result ≡ most_part }
{
    [0; PART]
}

// n pixels of two runs, converted into rows that are lent for it, and compared, unless a sample of the source is above its top. The first that is
// wrong is looked for where it is sought.
fn tally_part(
    plan: RowPlan,
    tops: Pixel,
    sought: bool,
    from: usize,
    to: usize,
    n: usize,
    a: Planes<'_>,
    b: Planes<'_>,
    c0: &mut [u16],
    c1: &mut [u16],
    c2: &mut [u16],
) -> Option<Tally>
    requires row_roomy { RowRoomy plan × TakesUpTo tops plan }
    requires n_le_most_part { (n ≤ most_part) × LongThree n (three c0.old c1.old c2.old) }
    requires long { LongThree (from + n) (held a) }
    requires long_2 { LongThree (to + n) (held b) }
    ensures { PartTold result sought tops (row_planned plan) from to n (held a.entry) (held b.entry) }
{
    if !paint_row(plan, tops, n, from, 0, a, c0, c1, c2) {
        return None;
    }
    let c = Planes {
        p0: c0,
        p1: c1,
        p2: c2,
    };
    Some(compare_part(sought, to, n, c, b))
}

// The n pixels from index `from` of the source's planes and from index `to` of the claimed, part by part.
pub fn tally_run(
    plan: RowPlan,
    tops: Pixel,
    from: usize,
    to: usize,
    n: usize,
    a: Planes<'_>,
    b: Planes<'_>,
) -> Option<Tally>
    requires row_roomy { RowRoomy plan × TakesUpTo tops plan }
    requires n_le_most_run { n ≤ most_run }
    requires long { LongThree (from + n) (held a) }
    requires long_2 { LongThree (to + n) (held b) }
    ensures { RunTold result tops (row_planned plan) from to n (held a.entry) (held b.entry) }
{
    let mut c0 = room();
    let mut c1 = room();
    let mut c2 = room();
    let mut first = None;
    let mut wrong = 0;
    let mut done = 0;
    // A while loop: `step_by` gives where the parts begin, and how long each is would be asked for all the same.
    while done < n {
        let m = PART.min(n - done);
        let sought = first.is_none();
        let part = tally_part(
            plan,
            tops,
            sought,
            from + done,
            to + done,
            m,
            a,
            b,
            &mut c0,
            &mut c1,
            &mut c2,
        )?;
        if let Some(i) = part.first {
            first = Some(done + i);
        }
        wrong += part.wrong;
        done += m;
    }
    Some(Tally { first, wrong })
}
