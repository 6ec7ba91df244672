// Three planes that travel together: those that a call reads.
ghost use Rattle.std.specs.Prelude.{◌≡◌, ◌+◌, ◌<◌, length};
ghost use Rattle.planes.specs.Three.{held, pixel_in, row_parts, LongThree};

use sample::Pixel;

// The planes that are read. Those that are written stay three parameters: a struct of three `&mut` has to promise at each call that it holds the same
// three still, and a part of each can't be lent out of it.
#[derive(Clone, Copy)]
pub struct Planes<'a> {
    pub p0: &'a [u16],
    pub p1: &'a [u16],
    pub p2: &'a [u16],
}

impl<'a> Planes<'a> {
    // The pixel at index i.
    pub fn pixel(self, i: usize) -> Pixel
        requires p0_in_bounds { i < length self.p0.now }
        requires p1_in_bounds { i < length self.p1.now }
        requires p2_in_bounds { i < length self.p2.now }
        ensures { result ≡ pixel_in (held self.entry) i }
    {
        Pixel {
            p0: self.p0[i],
            p1: self.p1[i],
            p2: self.p2[i],
        }
    }

    // The n pixels from index `from` on.
    pub fn part(self, from: usize, n: usize) -> Planes<'a>
        requires { LongThree (from + n) (held self) }
        ensures { held result ≡ row_parts (held self.entry) from n }
    {
        let end = from + n;
        Planes {
            p0: &self.p0[from..end],
            p1: &self.p1[from..end],
            p2: &self.p2[from..end],
        }
    }
}
