// The equations of the level matrices: three weights and a denominator. A weight is held in two parts, one that adds and one that takes
// away, and the code never meets a number below zero.
ghost use Rattle.std.specs.Prelude.{◌≡◌, ◌+◌, ◌<◌};
ghost use Rattle.levels.specs.Conversion.{Shares};
ghost use Rattle.levels.specs.Equations.{all_parts, weights, equation_y, equation_pb, equation_pr, equation_r, equation_g, equation_b, luma_matrix};

// One level by three others.
#[derive(Clone, Copy)]
pub struct Equation {
    pub up0: u64,
    pub up1: u64,
    pub up2: u64,
    pub down0: u64,
    pub down1: u64,
    pub down2: u64,
    pub over: u64,
}

// Three levels by three others, by plane.
#[derive(Clone, Copy)]
pub struct Equations {
    pub first: Equation,
    pub second: Equation,
    pub third: Equation,
}

// R, G, B to Y, Cb, Cr and back.
#[derive(Clone, Copy)]
pub struct LevelMatrix {
    pub forward: Equations,
    pub reverse: Equations,
}

// KR, KG and KB, in parts of `all`. `Shares` is no ghost field, since the definition `weights` takes any KR and KB.
#[derive(Clone, Copy)]
struct Weights {
    kr: u64,
    kg: u64,
    kb: u64,
    all: u64,
}

impl Weights {
    // The weights are printed in ten-thousandths.
    const ALL: u64 = 10000;

    // KG is what KR and KB leave.
    fn of(kr: u64, kb: u64) -> Weights
        requires { kr + kb < all_parts }
        ensures value { result ≡ weights kr kb }
        ensures shares { Shares result }
    {
        let kg = Self::ALL - kr - kb;
        Weights {
            kr,
            kg,
            kb,
            all: Self::ALL,
        }
    }
}

// The six equations stand apart, each as it is printed.
//
// (42): EY from R, G, B.
fn equation_y(k: Weights) -> Equation
    ensures { result ≡ equation_y k }
{
    Equation {
        up0: k.kr,
        up1: k.kg,
        up2: k.kb,
        down0: 0,
        down1: 0,
        down2: 0,
        over: k.all,
    }
}

// (43): EPB from R, G, B. 1 - KB is KR + KG.
fn equation_pb(k: Weights) -> Equation
    requires { Shares k }
    ensures { result ≡ equation_pb k }
{
    let rest = k.kr + k.kg;
    Equation {
        up0: 0,
        up1: 0,
        up2: rest,
        down0: k.kr,
        down1: k.kg,
        down2: 0,
        over: 2 * rest,
    }
}

// (44): EPR from R, G, B. 1 - KR is KG + KB.
fn equation_pr(k: Weights) -> Equation
    requires { Shares k }
    ensures { result ≡ equation_pr k }
{
    let rest = k.kg + k.kb;
    Equation {
        up0: rest,
        up1: 0,
        up2: 0,
        down0: 0,
        down1: k.kg,
        down2: k.kb,
        over: 2 * rest,
    }
}

// ER from Y, Cb, Cr.
fn equation_r(k: Weights) -> Equation
    requires { Shares k }
    ensures { result ≡ equation_r k }
{
    Equation {
        up0: k.all,
        up1: 0,
        up2: 2 * (k.kg + k.kb),
        down0: 0,
        down1: 0,
        down2: 0,
        over: k.all,
    }
}

// EG from Y, Cb, Cr: what the other two take from EY, over KG.
fn equation_g(k: Weights) -> Equation
    requires { Shares k }
    ensures { result ≡ equation_g k }
{
    let over = k.all * k.kg;
    let blue = 2 * k.kb * (k.kr + k.kg);
    let red = 2 * k.kr * (k.kg + k.kb);
    Equation {
        up0: over,
        up1: 0, // Cb and Cr are taken away
        up2: 0,
        down0: 0,
        down1: blue,
        down2: red,
        over,
    }
}

// EB from Y, Cb, Cr.
fn equation_b(k: Weights) -> Equation
    requires { Shares k }
    ensures { result ≡ equation_b k }
{
    Equation {
        up0: k.all,
        up1: 2 * (k.kr + k.kg),
        up2: 0,
        down0: 0,
        down1: 0,
        down2: 0,
        over: k.all,
    }
}

// A luma matrix by its KR and KB, in ten-thousandths.
pub fn luma(kr: u64, kb: u64) -> LevelMatrix
    requires { kr + kb < all_parts }
    ensures { result ≡ luma_matrix (weights kr kb) }
{
    let k = Weights::of(kr, kb);
    let forward = Equations {
        first: equation_y(k),
        second: equation_pb(k),
        third: equation_pr(k),
    };
    let reverse = Equations {
        first: equation_r(k),
        second: equation_g(k),
        third: equation_b(k),
    };
    LevelMatrix { forward, reverse }
}
