// A picture that is read: its sizes and its planes, which always travel together.
ghost use Rattle.std.specs.Prelude.{◌≡◌, ◌<◌};
ghost use Rattle.planes.specs.Picture.{picture, layout_of, pixel_of, PictureFits};
ghost use Rattle.planes.specs.Shown.{shown};

use crate::size::{Layout, row_start};
use crate::three::Planes;
use sample::Pixel;

#[derive(Clone, Copy)]
pub struct Picture<'a> {
    pub width: usize,
    pub height: usize,
    pub stride: usize,
    pub planes: Planes<'a>,
}

impl<'a> Picture<'a> {
    // That of three planes with this stride.
    pub fn of(
        width: usize,
        height: usize,
        stride: usize,
        p0: &'a [u16],
        p1: &'a [u16],
        p2: &'a [u16],
    ) -> Picture<'a>
        ensures { shown result ≡ picture width height stride p0.now p1.now p2.now }
    {
        Picture {
            width,
            height,
            stride,
            planes: Planes { p0, p1, p2 },
        }
    }

    // Its stride, and how many elements its planes have.
    pub fn layout(self) -> Layout
        ensures { result ≡ layout_of (shown self.entry) }
    {
        let a = self.planes;
        Layout::of(self.stride, a.p0, a.p1, a.p2)
    }

    // The pixel at row j and column i.
    pub fn pixel(self, j: usize, i: usize) -> Pixel
        requires fits { PictureFits (shown self) }
        requires j_lt_height { j < self.height }
        requires i_lt_width { i < self.width }
        ensures { result ≡ pixel_of (shown self.entry) j i }
    {
        let index = row_start(j, self.height, self.stride) + i;
        self.planes.pixel(index)
    }
}
