// Who is let in: the first rule of a call that applies, or the setting in checked kinds.
#![tactic(auto)]

ghost use Rattle.std.specs.Prelude.{◌≡◌, [], ◌∷◌};
ghost use Rattle.sample.specs.Depth.{ThreeDepths};
ghost use Rattle.refusal.specs.Rules.{first};
ghost use Rattle.setting.specs.Rules.{admitted};
ghost use Rattle.scan.specs.First.{bad_rule};
ghost use Rattle.planes.specs.Shown.{shown};
ghost use Rattle.planes.specs.Sizes.{size_rules};
ghost use Rattle.admit.specs.Rules.{beyond_depth, pixel_picture, top_of, bad_one, sized_admission, picture_admission, pixel_admission, sample_admission};

use meter::SampleKind;
use planes::picture::Picture;
use planes::size::Layout;
use refusal::{Place, Refusal};
use sample::{Depths, Pixel, SampleDepth, Side};
use setting::admission::Served;
use setting::{Call, Setting};

// Rule 10, by what was found.
#[tactic(auto, unfolding(refusal::specs::Rules::first))]
fn past(served: Served, bad: Option<(Place, u16)>) -> Result<Served, Refusal>
    ensures { result ≡ admitted (first (bad_rule bad ∷ [])) served }
{
    match bad {
        Some((place, sample)) => Err(Refusal::bad_at(place, sample)),
        None => Ok(served),
    }
}

// A pixel is a picture of one row and one column.
fn bad_pixel(side: Side, d: Depths, p: Pixel) -> Option<(Place, u16)>
    requires { ThreeDepths d }
    ensures { result ≡ beyond_depth side d (pixel_picture p) }
{
    scan::bad_of_three(
        Picture::of(1, 1, 1, &[p.p0], &[p.p1], &[p.p2]),
        d.tops(side),
    )
}

// A call that is handed a whole pixel.
pub fn admit_pixel(call: Call, s: Setting, p: Pixel) -> Result<Served, Refusal>
    ensures { result ≡ pixel_admission call s p }
{
    let served = setting::admission::admit(call, s)?;
    past(served, bad_pixel(setting::reads(call), served.depths, p))
}

// The largest sample of a kind.
fn top_of(kind: SampleKind, d: Depths) -> u16
    requires { ThreeDepths d }
    ensures { result ≡ top_of kind d }
{
    match kind {
        SampleKind::Y => d.luma.largest(),
        SampleKind::Cb => d.chroma.largest(),
        SampleKind::Cr => d.chroma.largest(),
    }
}

fn bad_one(kind: SampleKind, d: Depths, v: u16) -> Option<(Place, u16)>
    requires { ThreeDepths d }
    ensures { result ≡ bad_one kind d v }
{
    let place = scan::first_bad(&[v], meter::plane_of(kind), 1, 1, 1, top_of(kind, d))?;
    Some((place, v))
}

// The meter on one sample, which alone is tested.
pub fn admit_sample(kind: SampleKind, s: Setting, v: u16) -> Result<Served, Refusal>
    ensures { result ≡ sample_admission kind s v }
{
    let served = setting::admission::admit(Call::Meter, s)?;
    past(served, bad_one(kind, served.depths, v))
}

// A call on a picture, by its setting and its sizes. `other` is the layout of the planes that it writes; a call that writes none names its own again.
pub fn admit_sizes(
    call: Call,
    s: Setting,
    width: usize,
    height: usize,
    own: Layout,
    other: Layout,
) -> Result<Served, Refusal>
    ensures { result ≡ sized_admission call s (size_rules width height (own ∷ other ∷ [])) }
{
    let served = setting::admission::admit(call, s)?;
    planes::size::check_sizes(width, height, own, other)?;
    Ok(served)
}

// A call on a picture, whole.
pub fn admit_picture(
    call: Call,
    s: Setting,
    a: Picture<'_>,
    other: Layout,
) -> Result<Served, Refusal>
    ensures { result ≡ picture_admission call s (shown a.entry) (other ∷ []) }
{
    let served = admit_sizes(call, s, a.width, a.height, a.layout(), other)?;
    let tops = served.depths.tops(setting::reads(call));
    past(served, scan::bad_of_three(a, tops))
}
