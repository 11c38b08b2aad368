// Three sizes together: the grid, its bins and their places.
ghost use Rattle.std.specs.Prelude.{◌≡◌};
ghost use Rattle.grid.specs.Grid.{grid_of, rgb_grid, bins_of, place_of, Accepted, Inside};

use crate::dimension::shift_of;

// Three sizes with their shifts (`BinnerU8x3`).
#[derive(Clone, Copy)]
pub struct Grid {
    pub shift1: u8,
    pub shift2: u8,
    pub shift3: u8,
    pub size1: usize,
    pub size2: usize,
    pub size3: usize,
}

impl Grid {
    // The grid for RGB (`BinnerU8x3::rgb`).
    pub fn rgb() -> Grid
        ensures { result ≡ rgb_grid }
    {
        Grid {
            shift1: 4,
            shift2: 3,
            shift3: 4,
            size1: 16,
            size2: 32,
            size3: 16,
        }
    }
}

// The grid of three sizes.
pub fn grid_of(size1: usize, size2: usize, size3: usize) -> Option<Grid>
    ensures { result ≡ grid_of size1 size2 size3 }
{
    let shift1 = shift_of(size1)?;
    let shift2 = shift_of(size2)?;
    let shift3 = shift_of(size3)?;
    Some(Grid {
        shift1,
        shift2,
        shift3,
        size1,
        size2,
        size3,
    })
}

// The number of bins.
pub fn bins(g: Grid) -> usize
    requires { Accepted g }
    ensures { result ≡ bins_of g }
{
    g.size1 * g.size2 * g.size3
}

// The place of a bin.
pub fn place(g: Grid, r: usize, gr: usize, b: usize) -> usize
    requires { Inside g r gr b }
    ensures { result ≡ place_of g r gr b }
{
    let row = (r << (8 - g.shift2)) + gr;
    (row << (8 - g.shift3)) + b
}
