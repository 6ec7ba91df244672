// Rules 8 and 9: the sizes of a picture, and the lengths of its planes.
ghost use Rattle.std.specs.Prelude.{◌≡◌, [], ◌∷◌, ◌≤◌, ◌<◌, length};
ghost use Rattle.refusal.specs.Rules.{first};
ghost use Rattle.planes.specs.Sizes.{layout, outside, size_outside, layout_short, size_rules, needed, most_size, most_stride, RowStart, Sized};

use refusal::Refusal;

// The largest width and height of a picture, and the largest stride of a plane.
const MOST_SIZE: usize = 8192;

const MOST_STRIDE: usize = 16384;

// How three planes lie in memory: their stride, and how many elements each has.
#[derive(Clone, Copy)]
pub struct Layout {
    pub stride: usize,
    pub n0: usize,
    pub n1: usize,
    pub n2: usize,
}

impl Layout {
    // That of three planes with this stride.
    pub fn of(stride: usize, p0: &[u16], p1: &[u16], p2: &[u16]) -> Layout
        ensures { result ≡ layout stride (length p0.now) (length p1.now) (length p2.now) }
    {
        Layout {
            stride,
            n0: p0.len(),
            n1: p1.len(),
            n2: p2.len(),
        }
    }
}

// Where row j of a plane starts.
pub fn row_start(j: usize, height: usize, stride: usize) -> usize
    requires j_lt_height { j < height }
    requires height_le_most_size { height ≤ most_size }
    requires stride_le_most_stride { stride ≤ most_stride }
    ensures { RowStart j height stride result }
{
    j * stride
}

// How many elements a plane must have.
pub fn needed(width: usize, height: usize, stride: usize) -> usize
    requires { Sized width height stride }
    ensures { result ≡ needed width height stride }
{
    row_start(height - 1, height, stride) + width
}

// Whether n is below `least` or above `most`.
#[tactic(auto, unfolding(crate::specs::Sizes::outside))]
fn outside(n: usize, least: usize, most: usize) -> bool
    ensures { result ≡ outside n least most }
{
    n < least || most < n
}

// Whether the width or the height is outside 1..8192, or a stride is too small for a row or too large.
#[tactic(auto, unfolding(crate::specs::Sizes::size_outside, crate::specs::Sizes::some_layout))]
fn size_outside(width: usize, height: usize, a: Layout, b: Layout) -> bool
    ensures { result ≡ size_outside width height (a ∷ b ∷ []) }
{
    outside(width, 1, MOST_SIZE)
        || outside(height, 1, MOST_SIZE)
        || outside(a.stride, width, MOST_STRIDE)
        || outside(b.stride, width, MOST_STRIDE)
}

// Whether one of the layout's planes ends before the picture does.
#[tactic(auto, unfolding(crate::specs::Sizes::layout_short, crate::specs::Sizes::any_short))]
fn layout_short(width: usize, height: usize, x: Layout) -> bool
    requires { Sized width height x.stride }
    ensures { result ≡ layout_short width height x }
{
    let need = needed(width, height, x.stride);
    x.n0 < need || x.n1 < need || x.n2 < need
}

// Rules 8 and 9 of a call that has two layouts.
#[tactic(auto, unfolding(refusal::specs::Rules::first, crate::specs::Sizes::some_layout))]
pub fn check_sizes(width: usize, height: usize, a: Layout, b: Layout) -> Result<(), Refusal>
    ensures { result ≡ first (size_rules width height (a ∷ b ∷ [])) }
{
    if size_outside(width, height, a, b) {
        return Err(Refusal::numbered(Refusal::SIZE_OUTSIDE));
    }
    if layout_short(width, height, a) || layout_short(width, height, b) {
        return Err(Refusal::numbered(Refusal::PLANE_SHORT));
    }
    Ok(())
}
