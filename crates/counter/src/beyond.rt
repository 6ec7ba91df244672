// A sample beyond its depth, in words: what was found, where, and what its depth has room for.
ghost use Rattle.std.specs.Prelude.{◌≡◌, min};
ghost use Rattle.sample.specs.Depth.{M, most_depth, plane_depth};
ghost use Rattle.setting.specs.Rules.{depths};

use crate::wording;
use refusal::Refusal;
use request::Request;
use sample::{MOST_DEPTH, Side};
use setting::Setting;
use std::{fmt, io};

// The depth of a plane, in bits.
fn depth_of(side: Side, s: Setting, plane: u8) -> u8
    ensures { result ≡ plane_depth side (depths s) plane }
{
    match side {
        Side::Rgb => s.rgb_depth,
        Side::Ycc if plane == 0 => s.y_depth,
        Side::Ycc => s.c_depth,
    }
}

// The largest sample of a depth. A setting with a greater one is refused before its samples are looked at.
fn largest(depth: u8) -> u16
    ensures { result ≡ M (min depth most_depth) }
{
    sample::largest(depth.min(MOST_DEPTH))
}

// A plane, by its name.
#[derive(Clone, Copy)]
struct Plane {
    side: Side,
    number: u8,
}

impl fmt::Display for Plane {
    fn fmt<W: fmt::Write>(&self, f: &mut fmt::Formatter<W>) -> fmt::Result {
        f.write_str(match (self.side, self.number) {
            (Side::Rgb, 0) => "R",
            (Side::Rgb, 1) => "G",
            (Side::Rgb, _) => "B",
            (Side::Ycc, 0) => "Y",
            (Side::Ycc, 1) => "Cb",
            (Side::Ycc, _) => "Cr",
        })
    }
}

fn on_side(rt: &impl Print, side: Side, s: Setting, r: Refusal) -> io::Result<()> {
    let plane = Plane {
        side,
        number: r.place.plane,
    };
    let depth = depth_of(side, s, r.place.plane);
    print!(rt;
        "sample {} of plane {plane} at row {}, column {}",
        r.sample, r.place.row, r.place.column
    )?;
    print!(rt;
        " is above {}, the largest at depth {depth}",
        largest(depth)
    )?;
    print!(rt; "; correct the sample, or the depth")
}

// What a request was refused for with a 10. A label has no samples.
pub fn sample(rt: &impl Print, request: Request, r: Refusal) -> io::Result<()> {
    match request {
        Request::Pixel(call, s, _) => on_side(rt, setting::reads(call), s, r),
        Request::Sample(_, s, _) => on_side(rt, Side::Ycc, s, r),
        Request::Label(_, _, _) => wording::meaning(rt, r.number),
    }
}
