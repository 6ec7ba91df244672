// How a line runs with the light, or with how far a colour is from it: read off the line by dividing, and tested. A line that is not of that form
// has no run.
ghost use Rattle.std.specs.Prelude.{◌≡◌, ◌+◌, ◌^◌, ◌≤◌, ◌<◌, IfSome};
ghost use Rattle.levels.specs.Room.{Room};
ghost use Rattle.runs.specs.Found.{blue_in, red_in, SumsFit, LumaRun, ColourRun};

use crate::Run;
use levels::equations::Equation;
use levels::lines::Line;

// What a line adds of one colour, what it takes away of two, and all other weights together.
#[derive(Clone, Copy)]
pub struct Colour {
    pub own: u64,
    pub first: u64,
    pub second: u64,
    pub others: u64,
}

// The run of a line that only adds: it starts at the light that it takes away, and level is what it adds.
pub(crate) fn luma_run(l: Line, times: u64) -> Option<Run>
    requires room { Room l }
    requires times_nonzero { 0 < times }
    ensures { IfSome result (λ r. LumaRun l times r) }
{
    let over = l.equation.over;
    if 0 < l.down % times || 0 < l.up % over {
        return None;
    }
    Some(Run {
        times,
        over,
        start: l.down / times,
        level: l.up / over,
    })
}

// Cb adds blue and takes away red and green. It and Cr stand apart, as the equations do: each is one row of what goes where.
pub(crate) fn blue_of(w: Equation) -> Colour
    requires { SumsFit w }
    ensures { result ≡ blue_in w }
{
    Colour {
        own: w.up2,
        first: w.down0,
        second: w.down1,
        others: w.up0 + w.up1 + w.down2,
    }
}

// Cr adds red and takes away green and blue.
pub(crate) fn red_of(w: Equation) -> Colour
    requires { SumsFit w }
    ensures { result ≡ red_in w }
{
    Colour {
        own: w.up0,
        first: w.down1,
        second: w.down2,
        others: w.up1 + w.up2 + w.down0,
    }
}

// The run of a line of one colour, from where that is the light itself. a and b are the weights of the two others.
pub(crate) fn colour_run(c: Colour, a: u64, b: u64, start: u64, l: Line) -> Option<Run>
    requires room { Room l }
    requires b_bound { a + b ≤ 65535 }
    requires others_bound { c.own + c.first + c.second + c.others < 2 ^ 62 }
    ensures runs { IfSome result (λ r. ColourRun c a b start l r) }
    ensures times_nonzero { IfSome result (λ r. 0 < r.times) }
{
    let over = l.equation.over;
    if a + b == 0 || l.up < l.down {
        return None;
    }
    let times = c.own / (a + b);
    let raised = l.up - l.down;
    let wrong = c.own % (a + b)
        + c.first.abs_diff(times * a)
        + c.second.abs_diff(times * b)
        + c.others;
    if times == 0 || 0 < wrong || 0 < raised % over {
        return None;
    }
    Some(Run {
        times,
        over,
        start,
        level: raised / over,
    })
}
