// A row by the lines of a level matrix.
ghost use Rattle.planes.specs.Three.{three, held};
ghost use Rattle.levels.specs.Lines.{lines_pixel};
ghost use Rattle.levels.specs.Room.{AllReady};
ghost use Rattle.levels.specs.Conversion.{SamplesFit};
ghost use Rattle.convert.specs.Row.{ConvertedRows, EveryOf, OneWidth};

use crate::each::each_sample;
use levels::by_lines::sample_of;
use levels::lines::Lines;
use planes::three::Planes;

// A level matrix, a plane at a time, so that one line's numbers stay at hand.
pub fn by_lines(lines: Lines, a: Planes<'_>, b0: &mut [u16], b1: &mut [u16], b2: &mut [u16])
    requires all_ready { AllReady lines }
    requires one_width { OneWidth (held a) (three b0.old b1.old b2.old) }
    requires every_of { EveryOf SamplesFit (held a) }
    ensures { ConvertedRows (lines_pixel lines) (held a.entry) (three b0.new b1.new b2.new) }
{
    let Lines {
        first,
        second,
        third,
    } = lines;
    each_sample(move |p| sample_of(first, p), a, b0);
    each_sample(move |p| sample_of(second, p), a, b1);
    each_sample(move |p| sample_of(third, p), a, b2);
}
