// The best position of a box in one dimension, from the moments.
ghost use Rattle.std.specs.Prelude.{◌≡◌};
ghost use Rattle.table.specs.Sound.{limit};
ghost use Rattle.table.specs.Layout.{laid, laid_view};
ghost use Rattle.boxes.specs.Box.{Within};
ghost use Rattle.sums.specs.declared.source.Source.TheVariants.{Moments};
ghost use Rattle.sums.specs.Box.{stats_of};
ghost use Rattle.sums.specs.Moments.{CanSum};
ghost use Rattle.spread.specs.Cut.{position_at, best_in};
ghost use Rattle.spread.specs.Inner.{Sided, walk_of};

use crate::before::before;
use crate::low_side::{less, low_side_sums};
use crate::position::{Position, later_wins, position_between};
use crate::walk::Walk;
use boxes::sides::Bounds;
use grid::place::Grid;
use sums::box_sums::Stats;
use table::layout::Layout;

// The position at a bin, from the records of the box and of its low side: the high side is the rest of the box. The
// table is named by the contract alone.
pub(crate) fn position_at<L: Layout>(
    small: &[u32],
    large: &[u64],
    g: Grid,
    x: Bounds,
    dimension: u8,
    bin: u8,
    all: Stats,
    low: Stats,
) -> Option<Position>
    requires { Sided g (laid_view L.layout small.now large.now) x dimension bin all low }
    ensures { result ≡ position_at g (laid_view L.layout small.now large.now) x dimension bin }
{
    let high = less(all, low);
    position_between(dimension, bin, low, high)
}

// The best position. A dimension of one bin has none; else the first bin gives what lies before the box, each other bin
// a position.
pub(crate) fn best_by_moments<L: Layout>(
    small: &[u32],
    large: &[u64],
    smallwork: &[u32],
    largework: &[u64],
    g: Grid,
    x: Bounds,
    dimension: u8,
    all: Stats,
    walk: Walk,
) -> Option<Position>
    requires can_sum { CanSum L.layout limit Moments g (laid L.layout small.now large.now)
        (laid L.layout smallwork.now largework.now) × Within g x }
    requires all_value { all ≡ stats_of g (laid_view L.layout small.now large.now) x }
    requires walk_value { walk ≡ walk_of g x dimension }
    ensures { result ≡ best_in g (laid_view L.layout small.now large.now) x dimension }
{
    let first = x.first_bin(dimension);
    let end = x.end_bin(dimension);
    if end - first == 1 {
        return None;
    }
    let base = before::<L>(
        small, large, smallwork, largework, g, x, dimension, walk, first,
    );
    let mut best = None;
    for bin in first + 1..end {
        let upto = before::<L>(
            small, large, smallwork, largework, g, x, dimension, walk, bin,
        );
        let low = low_side_sums::<L>(small, large, g, x, dimension, bin, upto, base);
        let later = position_at::<L>(small, large, g, x, dimension, bin, all, low);
        if later_wins(best, later) {
            best = later;
        }
    }
    best
}
