// A row by the words of its lines, a plane at a time, so that one line's words stay at hand.
ghost use Rattle.std.specs.Prelude.{◌≡◌, length};
ghost use Rattle.planes.specs.Three.{three, held};
ghost use Rattle.sample.specs.Depth.{UpTo};
ghost use Rattle.fixed.specs.Words.{word_sample, WordsFit};
ghost use Rattle.row_plan.specs.RowPlan.{words_pixel, AllWordsFit, UpToWords};
ghost use Rattle.convert.specs.Row.{row_by, ConvertedRows, EveryOf, OneWidth};

use convert::each::each_sample;
use fixed::by_words::{raised_sample, sided_sample};
use fixed::words::Words;
use planes::three::Planes;
use row_plan::WordPlanes;

// One plane by the rounding upward alone, which is cheaper, where that will do, and else each sample by the rounding for its side of zero.
fn word_plane(by: Words, a: Planes<'_>, b: &mut [u16])
    requires words_fit { WordsFit by }
    requires a1_len { length a.p1.now ≡ length a.p0.now }
    requires a2_len { length a.p2.now ≡ length a.p0.now }
    requires b_len { length b.old ≡ length a.p0.now }
    requires every_of { EveryOf (UpTo by.most) (held a) }
    ensures { b.new ≡ row_by (word_sample by) (held a.entry) }
{
    if by.lift == by.under {
        each_sample(move |p| raised_sample(by, p), a, b);
    } else {
        each_sample(move |p| sided_sample(by, p), a, b);
    }
}

// Three planes by their words.
pub fn by_words(by: WordPlanes, a: Planes<'_>, b0: &mut [u16], b1: &mut [u16], b2: &mut [u16])
    requires all_words_fit { AllWordsFit by }
    requires one_width { OneWidth (held a) (three b0.old b1.old b2.old) }
    requires every_of { EveryOf (UpToWords by) (held a) }
    ensures { ConvertedRows (words_pixel by) (held a.entry) (three b0.new b1.new b2.new) }
{
    word_plane(by.first, a, b0);
    word_plane(by.second, a, b1);
    word_plane(by.third, a, b2);
}
