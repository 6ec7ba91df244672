// The loops over a row: the samples as they are, a step for each pixel, and a step for each sample of one plane.
ghost use Rattle.std.specs.Prelude.{◌≡◌, length};
ghost use Rattle.planes.specs.Three.{three, held};
ghost use Rattle.convert.specs.Row.{EveryOf, OneWidth, SteppedRow, SteppedRows};

use planes::three::Planes;
use sample::Pixel;

// One row of samples, as it is. Element by element, which takes no call: `copy_from_slice` becomes
// `memmove`, and the archive asks the C library for `memset` and `memcpy` alone.
fn copy(a: &[u16], b: &mut [u16])
    requires { length b.old ≡ length a.now }
    ensures { b.new ≡ a.now }
{
    for i in 0..a.len() {
        b[i] = a[i];
    }
}

// Three rows, each as it is.
pub fn copy_three(a: Planes<'_>, b0: &mut [u16], b1: &mut [u16], b2: &mut [u16])
    requires b0_len { length b0.old ≡ length a.p0.now }
    requires b1_len { length b1.old ≡ length a.p1.now }
    requires b2_len { length b2.old ≡ length a.p2.now }
    ensures b0_after { b0.new ≡ a.entry.p0.now }
    ensures b1_after { b1.new ≡ a.entry.p1.now }
    ensures b2_after { b2.new ≡ a.entry.p2.now }
{
    copy(a.p0, b0);
    copy(a.p1, b1);
    copy(a.p2, b2);
}

// A pixel at a time, each by the step. The loop goes by an index: over six slices.
pub fn each_pixel<F: Fn(Pixel) -> Pixel>(
    step: F,
    a: Planes<'_>,
    b0: &mut [u16],
    b1: &mut [u16],
    b2: &mut [u16],
)
    requires one_width { OneWidth (held a) (three b0.old b1.old b2.old) }
    requires takes { EveryOf (F.pre step) (held a) }
    ensures { SteppedRows (F.post step) (held a.entry) (three b0.new b1.new b2.new) }
{
    for i in 0..a.p0.len() {
        let q = step(a.pixel(i));
        b0[i] = q.p0;
        b1[i] = q.p1;
        b2[i] = q.p2;
    }
}

// One plane by a step, so that what it takes for one plane stays at hand. The loop goes by an index: over four slices.
pub fn each_sample<F: Fn(Pixel) -> u16>(step: F, a: Planes<'_>, b: &mut [u16])
    requires a1_len { length a.p1.now ≡ length a.p0.now }
    requires a2_len { length a.p2.now ≡ length a.p0.now }
    requires b_len { length b.old ≡ length a.p0.now }
    requires takes { EveryOf (F.pre step) (held a) }
    ensures { SteppedRow (F.post step) (held a.entry) b.new }
{
    for i in 0..a.p0.len() {
        b[i] = step(a.pixel(i));
    }
}
