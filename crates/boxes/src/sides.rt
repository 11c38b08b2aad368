// A box, where it begins and ends in a dimension, its two sides, and the whole grid as a box.
ghost use Rattle.std.specs.Prelude.{◌≡◌};
ghost use Rattle.grid.specs.Grid.{Accepted};
ghost use Rattle.boxes.specs.Box.{min_at, max_at, one_bin, low_side, high_side, whole_of, Ordered};

use grid::place::Grid;

// A box: min inclusive, max exclusive, in each dimension (`Cube`).
#[derive(Clone, Copy, PartialEq, Eq, Default)]
pub struct Bounds {
    pub r0: u8,
    pub r1: u8,
    pub g0: u8,
    pub g1: u8,
    pub b0: u8,
    pub b1: u8,
}

impl Bounds {
    // The first bin of a box in a dimension, and the bin past its last.
    pub fn first_bin(self, dimension: u8) -> u8
        ensures { result ≡ min_at self dimension }
    {
        match dimension {
            0 => self.r0,
            1 => self.g0,
            _ => self.b0,
        }
    }

    pub fn end_bin(self, dimension: u8) -> u8
        ensures { result ≡ max_at self dimension }
    {
        match dimension {
            0 => self.r1,
            1 => self.g1,
            _ => self.b1,
        }
    }

    // Whether a box has one bin.
    pub fn is_one_bin(self) -> bool
        requires { Ordered self }
        ensures { result ≡ one_bin self }
    {
        self.r1 - self.r0 == 1 && self.g1 - self.g0 == 1 && self.b1 - self.b0 == 1
    }

    // The low side of a cut, [min, bin).
    pub fn low_side(self, dimension: u8, bin: u8) -> Bounds
        ensures { result ≡ low_side self dimension bin }
    {
        let mut low = self;
        match dimension {
            0 => low.r1 = bin,
            1 => low.g1 = bin,
            _ => low.b1 = bin,
        }
        low
    }

    // The high side of a cut, the rest.
    pub fn high_side(self, dimension: u8, bin: u8) -> Bounds
        ensures { result ≡ high_side self dimension bin }
    {
        let mut high = self;
        match dimension {
            0 => high.r0 = bin,
            1 => high.g0 = bin,
            _ => high.b0 = bin,
        }
        high
    }

    // The whole grid as a box.
    pub fn whole(g: Grid) -> Bounds
        requires { Accepted g }
        ensures { result ≡ whole_of g }
    {
        Bounds {
            r0: 0,
            r1: g.size1 as u8,
            g0: 0,
            g1: g.size2 as u8,
            b0: 0,
            b1: g.size3 as u8,
        }
    }
}
