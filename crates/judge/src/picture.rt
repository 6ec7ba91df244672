// Whole pictures: the first claimed pixel that is wrong, by row and then by column, and how many are.
ghost use Rattle.std.specs.Prelude.{◌≡◌, ◌*◌, ◌<◌, ◌≤◌};
ghost use Rattle.std.specs.Option.{ForSome};
ghost use Rattle.planes.specs.Picture.{layout_of, PictureFits, RoomFor};
ghost use Rattle.planes.specs.Shown.{shown};
ghost use Rattle.planes.specs.Sizes.{most_size};
ghost use Rattle.row_plan.specs.RowPlan.{row_planned, RowRoomy};
ghost use Rattle.rows.specs.Paint.{TakesUpTo};
ghost use Rattle.judge.specs.Judge.{or_row, found_in, PictureTold};

use crate::run::tally_run;
use planes::picture::Picture;
use planes::size::{needed, row_start};
use refusal::Place;
use row_plan::RowPlan;
use sample::Pixel;

// What a picture comes to: the first claimed pixel that is wrong, and how many are.
#[derive(Clone, Copy)]
pub struct Told {
    pub first: Option<Place>,
    pub wrong: u64,
}

// What was found, unless that is nothing, and then the pixel of row j at this column, if there is one.
#[tactic(auto, unfolding(scan::specs::First::or_found))]
fn or_row(found: Option<Place>, j: usize, column: Option<usize>) -> Option<Place>
    requires j_lt_most_size { j < most_size }
    requires column_lt_most_size { ForSome column (λ i. i < most_size) }
    ensures { result ≡ or_row found j column }
{
    if found.is_some() {
        return found;
    }
    let i = column?;
    Some(Place::of_pixel(j as u16, i as u16))
}

// Row by row. Nothing is told where a sample of the source is above its top.
fn tell_rows(plan: RowPlan, tops: Pixel, a: Picture<'_>, b: Picture<'_>) -> Option<Told>
    requires row_roomy { RowRoomy plan }
    requires takes_up_to { TakesUpTo tops plan }
    requires fits { PictureFits (shown a) }
    requires room { RoomFor (shown a) (layout_of (shown b)) }
    ensures { PictureTold result tops (row_planned plan) (shown a.entry) (shown b.entry) }
{
    let mut first = None;
    let mut wrong = 0;
    for j in 0..a.height {
        let from = row_start(j, a.height, a.stride);
        let to = row_start(j, a.height, b.stride);
        let row = tally_run(plan, tops, from, to, a.width, a.planes, b.planes)?;
        first = or_row(first, j, row.first);
        wrong += row.wrong;
    }
    Some(Told { first, wrong })
}

// The pixel at an index of rows that have nothing between them, if there is one.
fn found_in(index: Option<usize>, width: usize) -> Option<Place>
    requires width_nonzero { 0 < width }
    requires index_lt_most { ForSome index (λ k. k < width * most_size) }
    requires width_le_most_size { width ≤ most_size }
    ensures { result ≡ found_in index width }
{
    let k = index?;
    Some(Place::of_pixel((k / width) as u16, (k % width) as u16))
}

// All rows as one, where nothing lies between them on either side.
fn tell_whole(plan: RowPlan, tops: Pixel, a: Picture<'_>, b: Picture<'_>) -> Option<Told>
    requires row_roomy { RowRoomy plan }
    requires takes_up_to { TakesUpTo tops plan }
    requires fits { PictureFits (shown a) }
    requires room { RoomFor (shown a) (layout_of (shown b)) }
    requires a_close { a.stride ≡ a.width }
    requires b_close { b.stride ≡ a.width }
    ensures { PictureTold result tops (row_planned plan) (shown a.entry) (shown b.entry) }
{
    let n = needed(a.width, a.height, a.stride);
    let all = tally_run(plan, tops, 0, 0, n, a.planes, b.planes)?;
    Some(Told {
        first: found_in(all.first, a.width),
        wrong: all.wrong,
    })
}

pub fn tell(plan: RowPlan, tops: Pixel, a: Picture<'_>, b: Picture<'_>) -> Option<Told>
    requires row_roomy { RowRoomy plan }
    requires takes_up_to { TakesUpTo tops plan }
    requires fits { PictureFits (shown a) }
    requires room { RoomFor (shown a) (layout_of (shown b)) }
    ensures { PictureTold result tops (row_planned plan) (shown a.entry) (shown b.entry) }
{
    if a.stride == a.width && b.stride == a.width {
        return tell_whole(plan, tops, a, b);
    }
    tell_rows(plan, tops, a, b)
}
