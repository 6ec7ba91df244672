// Whether a row of pixels comes back, so that a search for one that does not can pass the row over.
ghost use Rattle.std.specs.Prelude.{◌≡◌, true, length};
ghost use Rattle.sample.specs.Depth.{InsideRGB};
ghost use Rattle.ycgco.specs.YCgCo.{lossless_forward, lossless_reverse, LosslessDepths};
ghost use Rattle.planes.specs.Three.{held};
ghost use Rattle.plan.specs.Plan.{planned, Roomy, Takes};
ghost use Rattle.plan.specs.Source.{same_pixel};
ghost use Rattle.convert.specs.Row.{EveryOf, KnownBack};

use plan::Plan;
use planes::three::Planes;
use sample::{Depths, Pixel};

// The bits in which two pixels differ, of all three samples together.
fn difference(p: Pixel, q: Pixel) -> u16
    ensures { result ≡ 0 → same_pixel p q ≡ true }
{
    (p.p0 ^ q.p0) | (p.p1 ^ q.p1) | (p.p2 ^ q.p2)
}

// The lossless formulas, back and forth. The loop goes on after a pixel that differs: with no exit it takes many at once. It goes by an index: over three slices.
fn lossless(back: Depths, forth: Depths, a: Planes<'_>) -> bool
    requires lossless_depths { LosslessDepths back × LosslessDepths forth }
    requires a1_len { length a.p1.now ≡ length a.p0.now }
    requires a2_len { length a.p2.now ≡ length a.p0.now }
    requires every_of { EveryOf (λ p. InsideRGB forth (lossless_reverse back p)) (held a) }
    ensures { KnownBack result (lossless_reverse back) (lossless_forward forth) (held a.entry) }
{
    let mut apart = 0;
    for i in 0..a.p0.len() {
        let p = a.pixel(i);
        let source = ycgco::lossless_reverse(back, p);
        let again = ycgco::lossless_forward(forth, source);
        apart |= difference(again, p);
    }
    apart == 0
}

// Yes only if every pixel of the row is the same when it was converted back and forth. No says nothing: of plans that lose something
// the row is not looked at.
pub fn row_comes_back(back: Plan, forth: Plan, a: Planes<'_>) -> bool
    requires roomy { Roomy back × Roomy forth }
    requires a1_len { length a.p1.now ≡ length a.p0.now }
    requires a2_len { length a.p2.now ≡ length a.p0.now }
    requires every_of { EveryOf (λ p. Takes forth (planned back p)) (held a) }
    ensures { KnownBack result (planned back) (planned forth) (held a.entry) }
{
    if let Plan::PlacesReverse = back {
        if let Plan::PlacesForward = forth {
            return true;
        }
    }
    if let Plan::LosslessReverse(d) = back {
        if let Plan::LosslessForward(e) = forth {
            return lossless(d, e, a);
        }
    }
    false
}
