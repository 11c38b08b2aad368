// The best position of a box, with its two sides there.
ghost use Rattle.std.specs.Prelude.{◌≡◌};
ghost use Rattle.table.specs.Sound.{limit};
ghost use Rattle.table.specs.Layout.{laid, laid_view};
ghost use Rattle.boxes.specs.Box.{Within};
ghost use Rattle.sums.specs.Moments.{CanSum};
ghost use Rattle.spread.specs.Cut.{better as better_of, best_cut, cut_at};

use crate::both_sides::{BestCut, sides_by_bins, sides_by_moments};
use crate::by_bins::best_by_bins;
use crate::by_moments::best_by_moments;
use crate::position::{Position, better};
use crate::walk::walk_of;
use boxes::sides::Bounds;
use grid::place::Grid;
use sums::box_sums::box_sum;
use sums::source::Source;
use table::layout::Layout;

// The best of the positions of the three dimensions, in order.
fn best_of(
    first: Option<Position>,
    second: Option<Position>,
    third: Option<Position>,
) -> Option<Position>
    ensures { result ≡ better_of (better_of first second) third }
{
    better(better(first, second), third)
}

// The best position of a box, or that it has none, with its two sides (`cut`), from where sums come from. Either search
// is asked three times, so that the compiler leaves the two apart, and each walk is found here, where the dimension is a
// constant.
#[tactic(auto, using(crate::proofs::Cases::best_of_three, crate::proofs::Cases::cut_none, crate::proofs::Cases::cut_some))]
pub fn best_cut<L: Layout>(
    small: &[u32],
    large: &[u64],
    smallwork: &[u32],
    largework: &[u64],
    source: Source,
    g: Grid,
    x: Bounds,
) -> Option<BestCut>
    requires { CanSum L.layout limit source g (laid L.layout small.now large.now)
        (laid L.layout smallwork.now largework.now) × Within g x }
    ensures { result
        ≡ cut_at g (laid_view L.layout small.now large.now) x
        (best_cut g (laid_view L.layout small.now large.now) x) }
{
    match source {
        Source::Moments => {
            let all = box_sum::<L>(small, large, smallwork, largework, source, g, x);
            let w0 = walk_of(g, x, 0);
            let w1 = walk_of(g, x, 1);
            let w2 = walk_of(g, x, 2);
            let best = best_of(
                best_by_moments::<L>(small, large, smallwork, largework, g, x, 0, all, w0),
                best_by_moments::<L>(small, large, smallwork, largework, g, x, 1, all, w1),
                best_by_moments::<L>(small, large, smallwork, largework, g, x, 2, all, w2),
            );
            Some(sides_by_moments::<L>(small, large, smallwork, largework, g, x, best?, all))
        }
        Source::Bins => {
            let best = best_of(
                best_by_bins::<L>(small, large, g, x, 0),
                best_by_bins::<L>(small, large, g, x, 1),
                best_by_bins::<L>(small, large, g, x, 2),
            );
            Some(sides_by_bins::<L>(small, large, g, x, best?))
        }
    }
}
