// What the search for a pixel without a source passes over at once: a run of pixels that all come back.
ghost use Rattle.std.specs.Prelude.{◌≡◌, true, ◌+◌};
ghost use Rattle.planes.specs.Picture.{EveryPixel, PictureFits};
ghost use Rattle.planes.specs.Shown.{shown};
ghost use Rattle.planes.specs.Three.{held, row_parts, LongThree};
ghost use Rattle.plan.specs.Plan.{planned, Roomy, Takes};
ghost use Rattle.plan.specs.Source.{comes_back};
ghost use Rattle.convert.specs.Row.{EveryOf, KnownBack};

use plan::Plan;
use planes::picture::Picture;
use planes::size::needed;
use planes::three::Planes;

// Yes only if all of the n pixels from index `from` on come back.
pub fn run_comes_back(back: Plan, forth: Plan, from: usize, n: usize, a: Planes<'_>) -> bool
    requires roomy { Roomy back × Roomy forth }
    requires long { LongThree (from + n) (held a) }
    requires every_of { EveryOf (λ p. Takes forth (planned back p)) (row_parts (held a) from n) }
    ensures { KnownBack result (planned back) (planned forth) (row_parts (held a.entry) from n) }
{
    convert::back::row_comes_back(back, forth, a.part(from, n))
}

// Yes only if every pixel of the picture comes back. Rows that have nothing between them are one run; of others it says no.
pub fn whole_comes_back(back: Plan, forth: Plan, a: Picture<'_>) -> bool
    requires roomy { Roomy back × Roomy forth }
    requires fits { PictureFits (shown a) }
    requires every_pixel { EveryPixel (λ p. Takes forth (planned back p)) (shown a) }
    ensures { result ≡ true → EveryPixel (λ p. comes_back (planned back) (planned forth) p ≡ true) (shown a.entry) }
{
    if a.stride != a.width {
        return false;
    }
    run_comes_back(
        back,
        forth,
        0,
        needed(a.width, a.height, a.stride),
        a.planes,
    )
}
