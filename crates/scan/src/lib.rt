// Rule 10: the first sample of a picture that is beyond its depth.
#![tactic(auto)]

ghost use Rattle.std.specs.Prelude.{◌≡◌, true, ◌+◌, ◌≤◌, length};
ghost use Rattle.planes.specs.Sizes.{Sized, needed};
ghost use Rattle.planes.specs.Three.{held, LongThree};
ghost use Rattle.planes.specs.Picture.{PictureFits};
ghost use Rattle.planes.specs.Shown.{shown};
ghost use Rattle.scan.specs.First.{largest_of, largest_pixel, first_bad, bad_sample, bad_found, sample_on, AllFine, RunsFine, Tells, IsPlaceOf};

use planes::picture::Picture;
use planes::size::{needed, row_start};
use planes::three::Planes;
use refusal::Place;
use sample::Pixel;

// The largest element, or 0 of none.
#[tactic(auto, unfolding(crate::specs::First::largest_of))]
fn largest(s: &[u16]) -> u16
    ensures { result ≡ largest_of (length s.now) s.now }
{
    let mut m = 0;
    for v in s {
        m = m.max(*v);
    }
    m
}

// The largest element of each of three planes, in one walk by an index: what has to be fetched of one is fetched while another is looked at.
#[tactic(auto, using(crate::proofs::Searches::largest_more), unfolding(crate::specs::First::largest_of))]
fn largest_of_three(a: Planes<'_>) -> Pixel
    requires a1_len { length a.p1.now ≡ length a.p0.now }
    requires a2_len { length a.p2.now ≡ length a.p0.now }
    ensures { result ≡ largest_pixel (length a.entry.p0.now) (held a.entry) }
{
    let mut m0 = 0;
    let mut m1 = 0;
    let mut m2 = 0;
    for i in 0..a.p0.len() {
        m0 = m0.max(a.p0[i]);
        m1 = m1.max(a.p1[i]);
        m2 = m2.max(a.p2[i]);
    }
    Pixel {
        p0: m0,
        p1: m1,
        p2: m2,
    }
}

// Yes exactly if no sample of a pixel is above its top.
fn is_within(p: Pixel, tops: Pixel) -> bool
    ensures { Tells result ((p.p0 ≤ tops.p0) × ((p.p1 ≤ tops.p1) × (p.p2 ≤ tops.p2))) }
{
    p.p0 <= tops.p0 && p.p1 <= tops.p1 && p.p2 <= tops.p2
}

// Yes exactly if none of the n samples from index `from` on is above its top, in any of three planes.
pub fn runs_fine(tops: Pixel, from: usize, n: usize, a: Planes<'_>) -> bool
    requires { LongThree (from + n) (held a) }
    ensures { Tells result (RunsFine tops from n (held a.entry)) }
{
    is_within(largest_of_three(a.part(from, n)), tops)
}

// Yes only if no sample is above `top`. Rows that have nothing between them are looked at as one; of others it says no.
fn whole_fine(p: &[u16], width: usize, height: usize, stride: usize, top: u16) -> bool
    requires sized { Sized width height stride }
    requires stride_in_bounds { needed width height stride ≤ length p.now }
    ensures { result ≡ true → AllFine p.now width height stride top }
{
    if stride != width {
        return false;
    }
    largest(&p[..needed(width, height, stride)]) <= top
}

// The first sample above `top`, by row and then by column. A plane, or a row, whose largest sample is not above it is passed
// over at once.
pub fn first_bad(
    p: &[u16],
    plane: u8,
    width: usize,
    height: usize,
    stride: usize,
    top: u16,
) -> Option<Place>
    requires sized { Sized width height stride }
    requires stride_in_bounds { needed width height stride ≤ length p.now }
    ensures { result ≡ first_bad p.now plane width height stride top }
{
    if whole_fine(p, width, height, stride, top) {
        return None;
    }
    let mut found = None;
    // A loop in a loop: rule 10 names the first sample by row and then by column, and the search ends there, by the label.
    'rows: for j in 0..height {
        let a = row_start(j, height, stride);
        let e = a + width;
        if largest(&p[a..e]) <= top {
            continue;
        }
        for i in 0..width {
            if top < p[a + i] {
                let row = j as u16;
                let column = i as u16;
                found = Some(Place { plane, row, column });
                break 'rows;
            }
        }
    }
    found
}

// The place of the first bad sample of a picture, where `tops` has the largest sample of each plane: in the lowest plane that has one.
#[tactic(auto, unfolding(crate::specs::First::bad_sample, crate::specs::First::first_of, crate::specs::First::or_found))]
fn first_bad_of_three(a: Picture<'_>, tops: Pixel) -> Option<Place>
    requires { PictureFits (shown a) }
    ensures { result ≡ bad_sample (shown a.entry) tops }
{
    first_bad(a.planes.p0, 0, a.width, a.height, a.stride, tops.p0)
        .or_else(|| first_bad(a.planes.p1, 1, a.width, a.height, a.stride, tops.p1))
        .or_else(|| first_bad(a.planes.p2, 2, a.width, a.height, a.stride, tops.p2))
}

// The sample that stands at a place of a picture.
fn sample_on(place: Place, a: Picture<'_>) -> u16
    requires fits { PictureFits (shown a) }
    requires place_of { IsPlaceOf (shown a) place }
    ensures { result ≡ sample_on (shown a.entry) place }
{
    let k = row_start(place.row as usize, a.height, a.stride) + place.column as usize;
    match place.plane {
        0 => a.planes.p0[k],
        1 => a.planes.p1[k],
        _ => a.planes.p2[k],
    }
}

// The first bad sample of a picture, and its number.
pub fn bad_of_three(a: Picture<'_>, tops: Pixel) -> Option<(Place, u16)>
    requires { PictureFits (shown a) }
    ensures { result ≡ bad_found (shown a.entry) tops }
{
    let place = first_bad_of_three(a, tops)?;
    let sample = sample_on(place, a);
    Some((place, sample))
}
