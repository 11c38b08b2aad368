// The index of a pixel: the map's byte at its bin, whose place two step tables and a shift lead to.
ghost use Rattle.std.specs.Prelude.{◌≡◌, ◌+◌, ◌*◌, ◌<◌, length, get_or};
ghost use Rattle.grid.specs.Grid.{colour_place};
ghost use Rattle.band.specs.Band.{index_at};
ghost use Rattle.band.specs.LookUp.{MapOf, Lookup};

use grid::dimension::bin_of;
use grid::place::Grid;
use grid::steps::steps;
use pixels::colour::{Rgb, colour};

// What indices are looked up by: a map of a grid, and the steps of the grid's first two dimensions. Whoever goes over
// a part of a frame finds them once.
#[derive(Drop)]
pub struct LookUp<'a> {
    pub g: Grid,
    pub t1: [usize; 256],
    pub t2: [usize; 256],
    pub map: &'a [u8],
    ghost ready: { Lookup g t1 t2 map.now },
}

impl<'a> LookUp<'a> {
    // That of a map.
    pub fn of(g: Grid, map: &'a [u8]) -> LookUp<'a>
        requires { MapOf g map.now }
        ensures grid { result.g ≡ g }
        ensures map { result.map.now ≡ map.now }
    {
        LookUp {
            g,
            t1: steps(g, 0),
            t2: steps(g, 1),
            map,
        }
    }

    // The index of a colour.
    fn index_of(&self, x: Rgb) -> u8
        ensures { result ≡ get_or self.now.map.now (colour_place self.now.g x) 0 }
    {
        let i1 = usize::from(x.c1);
        let i2 = usize::from(x.c2);
        let p = self.t1[i1] + self.t2[i2] + bin_of(self.g.shift3, x.c3);
        self.map[p]
    }

    // The index of pixel i of a part of a frame.
    pub fn index_at(&self, part: &[u8], i: usize) -> u8
        requires { 3 * i + 2 < length part.now }
        ensures { result ≡ index_at self.now.g self.now.map.now part.now i }
    {
        self.index_of(colour(part, i))
    }
}
