// Two rows of pixels, compared: in how many they differ, and where first.
#![tactic(auto)]

ghost use Rattle.std.specs.Prelude.{◌≡◌, ◌+◌, ◌≤◌, length};
ghost use Rattle.sample.specs.Flag.{one_if};
ghost use Rattle.planes.specs.Three.{held, row_parts, LongThree};
ghost use Rattle.convert.specs.Row.{OneWidth};
ghost use Rattle.compare.specs.Count.{count_of, FirstFound};
ghost use Rattle.compare.specs.Compare.{most_part, differ, rows_differ, Compared};

use planes::three::Planes;
use sample::Pixel;

// What pixels that were compared come to: the index of the first that is wrong, if there is one and it was looked for, and how many are.
#[derive(Clone, Copy)]
pub struct Tally {
    pub first: Option<usize>,
    pub wrong: u64,
}

// 1 of two pixels that differ, and else 0.
fn apart(p: Pixel, q: Pixel) -> u16
    ensures { result ≡ one_if (differ p q) }
{
    u16::from(p != q)
}

// How many pixels of two rows differ. The loop has no exit and counts in 16 bits, so it takes many pixels at once. It goes by an index: over six slices.
fn count_apart(c: Planes<'_>, b: Planes<'_>) -> u64
    requires one_width { OneWidth (held c) (held b) }
    requires c0_len_bound { length c.p0.now ≤ most_part }
    ensures { result ≡ count_of (length c.entry.p0.now) (rows_differ (held c.entry) (held b.entry)) }
{
    let mut wrong = 0;
    for i in 0..c.p0.len() {
        wrong += apart(c.pixel(i), b.pixel(i));
    }
    u64::from(wrong)
}

// The index of the first pixel at which two rows differ.
fn first_apart(c: Planes<'_>, b: Planes<'_>) -> Option<usize>
    requires { OneWidth (held c) (held b) }
    ensures { FirstFound (rows_differ (held c.entry) (held b.entry)) (length c.entry.p0.now) result }
{
    for i in 0..c.p0.len() {
        if c.pixel(i) != b.pixel(i) {
            return Some(i);
        }
    }
    None
}

// Two rows of one width, compared. The first pixel that is wrong is looked for where it is sought, and where there is one.
fn compare_rows(sought: bool, c: Planes<'_>, b: Planes<'_>) -> Tally
    requires one_width { OneWidth (held c) (held b) }
    requires c0_len_bound { length c.p0.now ≤ most_part }
    ensures { Compared result sought (length c.entry.p0.now) (rows_differ (held c.entry) (held b.entry)) }
{
    let wrong = count_apart(c, b);
    if sought && wrong > 0 {
        return Tally {
            first: first_apart(c, b),
            wrong,
        };
    }
    Tally { first: None, wrong }
}

// The first n pixels of three rows, and those from index `to` of the claimed planes on.
pub fn compare_part(sought: bool, to: usize, n: usize, c: Planes<'_>, b: Planes<'_>) -> Tally
    requires n_le_most_part { n ≤ most_part }
    requires long { LongThree n (held c) }
    requires long_2 { LongThree (to + n) (held b) }
    ensures { Compared result sought n (rows_differ (row_parts (held c.entry) 0 n) (row_parts (held b.entry) to n)) }
{
    compare_rows(sought, c.part(0, n), b.part(to, n))
}
