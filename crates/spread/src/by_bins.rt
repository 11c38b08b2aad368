// The best position of a box in one dimension, from the bins: both sides of each position are added up by themselves.
ghost use Rattle.std.specs.Prelude.{◌≡◌};
ghost use Rattle.table.specs.Sound.{limit};
ghost use Rattle.table.specs.Layout.{laid, laid_view, TableOfIn};
ghost use Rattle.bins.specs.Sum.{CanAdd};
ghost use Rattle.spread.specs.Cut.{position_at, best_in};
ghost use Rattle.spread.specs.Inner.{CutsAt};

use crate::position::{Position, better, position_between};
use boxes::sides::Bounds;
use grid::place::Grid;
use sums::box_sums::sum_of_bins;
use table::layout::Layout;

// The position at a bin.
fn position_by_bins<L: Layout>(
    small: &[u32],
    large: &[u64],
    g: Grid,
    x: Bounds,
    dimension: u8,
    bin: u8,
) -> Option<Position>
    requires { TableOfIn L.layout g (laid L.layout small.now large.now)
        × CutsAt g (laid_view L.layout small.now large.now) x dimension bin }
    ensures { result ≡ position_at g (laid_view L.layout small.now large.now) x dimension bin }
{
    let low = sum_of_bins::<L>(small, large, g, x.low_side(dimension, bin));
    let high = sum_of_bins::<L>(small, large, g, x.high_side(dimension, bin));
    position_between(dimension, bin, low, high)
}

// The best position.
pub(crate) fn best_by_bins<L: Layout>(
    small: &[u32],
    large: &[u64],
    g: Grid,
    x: Bounds,
    dimension: u8,
) -> Option<Position>
    requires { CanAdd L.layout limit g (laid L.layout small.now large.now) x }
    ensures { result ≡ best_in g (laid_view L.layout small.now large.now) x dimension }
{
    let mut best = None;
    for bin in x.first_bin(dimension) + 1..x.end_bin(dimension) {
        best = better(
            best,
            position_by_bins::<L>(small, large, g, x, dimension, bin),
        );
    }
    best
}
