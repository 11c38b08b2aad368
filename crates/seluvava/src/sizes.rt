// How many bins a grid has, which a map has in bytes.
ghost use Rattle.std.specs.Prelude.{◌≡◌};
ghost use Rattle.seluvava.specs.Sizes.{bins_for};

use grid::place::{bins, grid_of};

// The bins of a grid, or 0 where it is refused.
pub fn seluvava_bins(b1: usize, b2: usize, b3: usize) -> usize
    ensures { result ≡ bins_for b1 b2 b3 }
{
    match grid_of(b1, b2, b3) {
        Some(g) => bins(g),
        None => 0,
    }
}
