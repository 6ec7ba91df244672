// A line in lowest terms: twice its numbers, so that the half that Round adds is whole too, over what divides them all.
ghost use Rattle.std.specs.Prelude.{◌≤◌, ◌<◌};
ghost use Rattle.std.specs.Int.{◌∣◌};
ghost use Rattle.levels.specs.Conversion.{most_sample};
ghost use Rattle.levels.specs.Room.{Room};
ghost use Rattle.fixed.specs.Numbers.{distance};
ghost use Rattle.fixed.specs.Steps.{Factor, Turns, Turned, Parted, Reduces};

use levels::lines::Line;
use rounding::common::common;

// A weight without its sign: its size, its mark, and the product of the two.
#[derive(Clone, Copy)]
pub struct Size {
    pub a: u64,
    pub mark: u16,
    pub moved: u64,
}

// A difference: one of the two is 0.
#[derive(Clone, Copy)]
pub struct Difference {
    pub plus: u64,
    pub minus: u64,
}

// The line's numbers over e. The constant is plus - minus.
#[derive(Clone, Copy)]
pub struct Reduced {
    pub e: u64,
    pub first: Size,
    pub second: Size,
    pub third: Size,
    pub plus: u64,
    pub minus: u64,
}

// What divides all the numbers of a line, twice each.
fn factor(line: Line) -> u64
    requires { Room line }
    ensures { Factor line result }
{
    let w = line.equation;
    let n0 = 2 * w.up0.abs_diff(w.down0);
    let n1 = 2 * w.up1.abs_diff(w.down1);
    let n2 = 2 * w.up2.abs_diff(w.down2);
    let n = (2 * line.up + w.over).abs_diff(2 * line.down);
    let g0 = common(2 * w.over, n0);
    let g1 = common(g0, n1);
    let g2 = common(g1, n2);
    common(g2, n)
}

// A weight in lowest terms. One that takes away is measured from the largest sample.
fn turned(up: u64, down: u64, g: u64, most: u16) -> Size
    requires { Turns up down g most }
    ensures { Turned up down g most result }
{
    if up < down {
        let a = 2 * (down - up) / g;
        Size {
            a,
            mark: most,
            moved: a * (most as u64),
        }
    } else {
        Size {
            a: 2 * (up - down) / g,
            mark: 0,
            moved: 0,
        }
    }
}

// p - q in lowest terms.
fn parted(p: u64, q: u64, g: u64) -> Difference
    requires g_nonzero { 0 < g }
    requires g { g ∣ distance p q }
    ensures { Parted p q g result }
{
    if p < q {
        Difference {
            plus: 0,
            minus: (q - p) / g,
        }
    } else {
        Difference {
            plus: (p - q) / g,
            minus: 0,
        }
    }
}

// A line in lowest terms, for samples up to `most`. That bound is a clause wherever it stands: a type for it would be opened again at each use of `most`.
pub fn reduce(line: Line, most: u16) -> Reduced
    requires room { Room line }
    requires most_le_most_sample { most ≤ most_sample }
    ensures { Reduces line most result }
{
    let w = line.equation;
    let g = factor(line);
    let first = turned(w.up0, w.down0, g, most);
    let second = turned(w.up1, w.down1, g, most);
    let third = turned(w.up2, w.down2, g, most);
    let constant = parted(2 * line.up + w.over, 2 * line.down, g);
    let minus = first.moved + second.moved + third.moved + constant.minus;
    Reduced {
        e: 2 * w.over / g,
        first,
        second,
        third,
        plus: constant.plus,
        minus,
    }
}
