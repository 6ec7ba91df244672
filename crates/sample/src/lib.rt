// What every crate above speaks of: depths of three kinds that cannot be taken for each other, and a pixel.
#![tactic(auto)]

ghost use Rattle.std.specs.Prelude.{◌≡◌, ℕ, ◌^◌, ◌≤◌, ◌<◌};
ghost use Rattle.sample.specs.Depth.{most_depth, Depth, rgb_checked, luma_checked, chroma_checked, depths_checked, ThreeDepths, at_most, M, middle_of, S, tops};

// Three samples, by plane: R, G, B on one side and Y, Cb, Cr on the other.
#[derive(Clone, Copy, PartialEq, Eq)]
pub struct Pixel {
    pub p0: u16,
    pub p1: u16,
    pub p2: u16,
}

// The two sides of a setting.
#[derive(Clone, Copy)]
pub enum Side {
    Rgb,
    Ycc,
}

// The two ends of every depth, and the upper end for a level matrix.
pub const LEAST_DEPTH: u8 = 8;

pub const MOST_DEPTH: u8 = 16;

pub const MOST_LEVEL_DEPTH: u8 = 12;

// The first number past the samples of every depth.
pub const PAST_SAMPLES: u64 = 1 << MOST_DEPTH;

// What the three kinds of depth have in common. Each is a number of bits, and a type of its own.
pub trait SampleDepth: Copy {
    ghost bits: { Self → ℕ };

    fn bits(self) -> u8
        ensures { result ≡ bits self };

    // M, the largest sample of the plane.
    final fn largest(self) -> u16
        requires { bits self ≤ most_depth }
        ensures { result ≡ M (bits self) }
    {
        largest(self.bits())
    }

    // S, the step of narrow range.
    final fn step(self) -> u16
        requires { Depth (bits self) }
        ensures { result ≡ S (bits self) }
    {
        step(self.bits())
    }
}

// Three tuple structs, and not one over a kind: the rules want each to be one number.
#[derive(Clone, Copy)]
pub struct RgbDepth(pub u8);

#[derive(Clone, Copy)]
pub struct LumaDepth(pub u8);

#[derive(Clone, Copy)]
pub struct ChromaDepth(pub u8);

impl SampleDepth for RgbDepth {
    ghost bits = { λ d. d.0 };

    fn bits(self) -> u8 {
        self.0
    }
}

impl SampleDepth for LumaDepth {
    ghost bits = { λ d. d.0 };

    fn bits(self) -> u8 {
        self.0
    }
}

impl SampleDepth for ChromaDepth {
    ghost bits = { λ d. d.0 };

    fn bits(self) -> u8 {
        self.0
    }
}

impl RgbDepth {
    pub const LEAST: u8 = LEAST_DEPTH;

    pub const MOST: u8 = MOST_DEPTH; // of R, G and B

    #[tactic(auto, unfolding(crate::specs::Depth::rgb_checked, crate::specs::Depth::is_depth))]
    pub fn checked(n: u8) -> Option<RgbDepth>
        ensures { result ≡ rgb_checked n }
    {
        (Self::LEAST <= n && n <= Self::MOST).then_some(RgbDepth(n))
    }
}

impl LumaDepth {
    pub const LEAST: u8 = LEAST_DEPTH;

    pub const MOST: u8 = MOST_DEPTH;

    #[tactic(auto, unfolding(crate::specs::Depth::luma_checked, crate::specs::Depth::is_depth))]
    pub fn checked(n: u8) -> Option<LumaDepth>
        ensures { result ≡ luma_checked n }
    {
        (Self::LEAST <= n && n <= Self::MOST).then_some(LumaDepth(n))
    }
}

impl ChromaDepth {
    pub const LEAST: u8 = LEAST_DEPTH;

    pub const MOST: u8 = MOST_DEPTH;

    #[tactic(auto, unfolding(crate::specs::Depth::chroma_checked, crate::specs::Depth::is_depth))]
    pub fn checked(n: u8) -> Option<ChromaDepth>
        ensures { result ≡ chroma_checked n }
    {
        (Self::LEAST <= n && n <= Self::MOST).then_some(ChromaDepth(n))
    }

    // H, the middle of the plane.
    pub fn middle(self) -> u16
        requires le_self { 1 ≤ self.0 }
        requires self_le_most_depth { self.0 ≤ most_depth }
        ensures { result ≡ middle_of self }
    {
        power(self.0 - 1)
    }
}

// The depths of a setting, past their check.
#[derive(Clone, Copy)]
pub struct Depths {
    pub rgb: RgbDepth,
    pub luma: LumaDepth,
    pub chroma: ChromaDepth,
}

impl Depths {
    #[tactic(auto, unfolding(crate::specs::Depth::rgb_checked, crate::specs::Depth::luma_checked, crate::specs::Depth::chroma_checked, crate::specs::Depth::are_depths, crate::specs::Depth::depths_checked))]
    pub fn checked(rgb: u8, luma: u8, chroma: u8) -> Option<Depths>
        ensures { result ≡ depths_checked rgb luma chroma }
    {
        let rgb = RgbDepth::checked(rgb)?;
        let luma = LumaDepth::checked(luma)?;
        let chroma = ChromaDepth::checked(chroma)?;
        Some(Depths { rgb, luma, chroma })
    }

    // The largest sample of each plane of a side.
    pub fn tops(self, side: Side) -> Pixel
        requires { ThreeDepths self }
        ensures { result ≡ tops side self }
    {
        let [p0, p1, p2] = match side {
            Side::Rgb => [self.rgb.largest(), self.rgb.largest(), self.rgb.largest()],
            Side::Ycc => [
                self.luma.largest(),
                self.chroma.largest(),
                self.chroma.largest(),
            ],
        };
        Pixel { p0, p1, p2 }
    }

    // Whether no depth is above `most`.
    #[tactic(auto, unfolding(crate::specs::Depth::at_most))]
    pub fn at_most(self, most: u8) -> bool
        ensures { result ≡ at_most most self }
    {
        self.rgb.0 <= most && self.luma.0 <= most && self.chroma.0 <= most
    }
}

// 2^bits, for fewer bits than the deepest sample has.
fn power(bits: u8) -> u16
    requires { bits < most_depth }
    ensures { result ≡ 2 ^ bits }
{
    1u16 << bits
}

// M, the largest sample of a depth.
pub fn largest(depth: u8) -> u16
    requires { depth ≤ most_depth }
    ensures { result ≡ M depth }
{
    ((1u32 << depth) - 1) as u16
}

// S, the step of narrow range: it is 1 at 8 bits, whatever the least depth is.
fn step(depth: u8) -> u16
    requires { Depth depth }
    ensures { result ≡ S depth }
{
    power(depth - 8)
}
