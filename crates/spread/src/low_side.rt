// The statistics of the low side of a position, from those of what lies before the bin and before the box.
ghost use Rattle.std.specs.Prelude.{◌≡◌};
ghost use Rattle.table.specs.Layout.{laid_view};
ghost use Rattle.boxes.specs.Box.{low_side};
ghost use Rattle.sums.specs.Box.{stats_of};
ghost use Rattle.spread.specs.Inner.{minus_stats, Covers, combined_stats, CanCombine, Slabs};

use boxes::sides::Bounds;
use grid::place::Grid;
use sums::box_sums::Stats;
use table::layout::Layout;

// One record less another: weight and sums in whole numbers, the squares in f64.
#[tactic(auto, unfolding(crate::specs::Inner::minus_stats))]
pub(crate) fn less(a: Stats, b: Stats) -> Stats
    requires { Covers a b }
    ensures { result ≡ minus_stats a b }
{
    Stats {
        weight: a.weight - b.weight,
        sum1: a.sum1 - b.sum1,
        sum2: a.sum2 - b.sum2,
        sum3: a.sum3 - b.sum3,
        squares: a.squares - b.squares,
    }
}

// What was read, combined by inclusion and exclusion: the corner less what lies left of the box, and less what lies
// above it but for what was taken off with the left.
#[tactic(auto, unfolding(crate::specs::Inner::combined_stats))]
pub(crate) fn combined(corner: Stats, left: Stats, above: Stats, diagonal: Stats) -> Stats
    requires { CanCombine corner left above diagonal }
    ensures { result ≡ combined_stats corner left above diagonal }
{
    less(less(corner, left), less(above, diagonal))
}

// The statistics of the low side of a position: what lies before the bin, less what lies before the box. The table, the
// box and the position are named by the contract alone.
pub(crate) fn low_side_sums<L: Layout>(
    small: &[u32],
    large: &[u64],
    g: Grid,
    x: Bounds,
    dimension: u8,
    bin: u8,
    before: Stats,
    base: Stats,
) -> Stats
    requires { Slabs g (laid_view L.layout small.now large.now) x dimension bin before base }
    ensures { result
        ≡ stats_of g (laid_view L.layout small.now large.now) (low_side x dimension bin) }
{
    less(before, base)
}
