// A pixel by the prepared lines of its setting: three sums, and no division.
ghost use Rattle.std.specs.Prelude.{◌≡◌};
ghost use Rattle.levels.specs.Conversion.{SamplesFit};
ghost use Rattle.levels.specs.Lines.{line_sample, lines_pixel};
ghost use Rattle.levels.specs.Room.{LineReady, AllReady};

use crate::lines::{Lines, ReadyLine, weighted_sum};
use sample::Pixel;

// One sample by its line. All kinds of sample come from here.
pub fn sample_of(l: ReadyLine, p: Pixel) -> u16
    requires line_ready { LineReady l }
    requires samples_fit { SamplesFit p }
    ensures { result ≡ line_sample l.line p }
{
    let line = l.line;
    let w = line.equation;
    let x = p.p0 as u64;
    let y = p.p1 as u64;
    let z = p.p2 as u64;
    let plus = weighted_sum(w.up0, x, w.up1, y, w.up2, z, line.up);
    let minus = weighted_sum(w.down0, x, w.down1, y, w.down2, z, line.down);
    rounding::round_clip_by(plus, minus, w.over, l.by, line.mid, line.top)
}

// The three samples of a pixel.
pub fn pixel_of(lines: Lines, p: Pixel) -> Pixel
    requires all_ready { AllReady lines }
    requires samples_fit { SamplesFit p }
    ensures { result ≡ lines_pixel lines p }
{
    let p0 = sample_of(lines.first, p);
    let p1 = sample_of(lines.second, p);
    let p2 = sample_of(lines.third, p);
    Pixel { p0, p1, p2 }
}
