// The two sides of a box at its best position, with the statistics of each.
ghost use Rattle.std.specs.Prelude.{◌≡◌, Some};
ghost use Rattle.table.specs.Sound.{limit};
ghost use Rattle.table.specs.Layout.{laid, laid_view};
ghost use Rattle.boxes.specs.Box.{Within};
ghost use Rattle.bins.specs.Sum.{CanAdd};
ghost use Rattle.sums.specs.declared.source.Source.TheVariants.{Moments};
ghost use Rattle.sums.specs.Box.{stats_of};
ghost use Rattle.sums.specs.Moments.{CanSum};
ghost use Rattle.spread.specs.Cut.{best_cut, sides_at};

use crate::low_side::less;
use crate::position::Position;
use boxes::sides::Bounds;
use grid::place::Grid;
use sums::box_sums::{Stats, box_sum, sum_of_bins};
use sums::source::Source;
use table::layout::Layout;

// The best position of a box, with the statistics of the low and of the high side there.
#[derive(Clone, Copy)]
pub struct BestCut {
    pub position: Position,
    pub low: Stats,
    pub high: Stats,
}

// The best position with its sides, from the moments: the high side is what the low side leaves of the box, so that a
// round finds two sums and not three.
pub(crate) fn sides_by_moments<L: Layout>(
    small: &[u32],
    large: &[u64],
    smallwork: &[u32],
    largework: &[u64],
    g: Grid,
    x: Bounds,
    position: Position,
    all: Stats,
) -> BestCut
    requires can_sum { CanSum L.layout limit Moments g (laid L.layout small.now large.now)
        (laid L.layout smallwork.now largework.now) × Within g x }
    requires position_value { (best_cut g (laid_view L.layout small.now large.now) x ≡ Some position)
        × (all ≡ stats_of g (laid_view L.layout small.now large.now) x) }
    ensures { result ≡ sides_at g (laid_view L.layout small.now large.now) x position }
{
    let low = box_sum::<L>(
        small,
        large,
        smallwork,
        largework,
        Source::Moments,
        g,
        x.low_side(position.dimension, position.bin),
    );
    BestCut {
        position,
        low,
        high: less(all, low),
    }
}

// The same from the bins: each side is added up by itself.
pub(crate) fn sides_by_bins<L: Layout>(
    small: &[u32],
    large: &[u64],
    g: Grid,
    x: Bounds,
    position: Position,
) -> BestCut
    requires can_add { CanAdd L.layout limit g (laid L.layout small.now large.now) x }
    requires position_value { best_cut g (laid_view L.layout small.now large.now) x ≡ Some position }
    ensures { result ≡ sides_at g (laid_view L.layout small.now large.now) x position }
{
    let low = x.low_side(position.dimension, position.bin);
    let high = x.high_side(position.dimension, position.bin);
    BestCut {
        position,
        low: sum_of_bins::<L>(small, large, g, low),
        high: sum_of_bins::<L>(small, large, g, high),
    }
}
