// The statistics of a box's bins before a bin, from the moments (`volume_at`).
ghost use Rattle.std.specs.Prelude.{◌≡◌, ◌≤◌};
ghost use Rattle.table.specs.Sound.{limit};
ghost use Rattle.table.specs.Layout.{laid, laid_view};
ghost use Rattle.boxes.specs.Box.{max_at, slab_to, Within};
ghost use Rattle.sums.specs.Box.{stats_from, stats_of};
ghost use Rattle.sums.specs.declared.source.Source.TheVariants.{Moments};
ghost use Rattle.sums.specs.Moments.{CanSum};
ghost use Rattle.spread.specs.Inner.{walk_of, HasRecord};

use crate::low_side::combined;
use crate::walk::Walk;
use boxes::sides::Bounds;
use grid::place::Grid;
use sums::box_sums::{Stats, stats_of};
use table::cell::ZEROS;
use table::layout::Layout;

// The record at a place of the moments.
fn record<L: Layout>(small: &[u32], large: &[u64], place: usize) -> Stats
    requires { HasRecord L.layout (laid L.layout small.now large.now) place }
    ensures { result ≡ stats_from (laid_view L.layout small.now large.now place) }
{
    stats_of(L::cell(small, large, place))
}

// The statistics of a box's bins before a bin of a dimension, from the edge of the grid on: reads the four places of the
// walk; a place before the edge counts as zeros. The table and the box are named by the contract alone. As a call of its
// own it would make a cut at k = 256 slower by a tenth.
#[inline(always)]
pub(crate) fn before<L: Layout>(
    small: &[u32],
    large: &[u64],
    smallwork: &[u32],
    largework: &[u64],
    g: Grid,
    x: Bounds,
    dimension: u8,
    walk: Walk,
    bin: u8,
) -> Stats
    requires can_sum { CanSum L.layout limit Moments g (laid L.layout small.now large.now)
        (laid L.layout smallwork.now largework.now) × Within g x × (bin ≤ max_at x dimension) }
    requires walk_value { walk ≡ walk_of g x dimension }
    ensures { result
        ≡ stats_of g (laid_view L.layout small.now large.now) (slab_to x dimension bin) }
{
    let none = stats_of(ZEROS);
    if bin == 0 {
        return none;
    }
    let far = walk.step * ((bin - 1) as usize);
    let corner = record::<L>(smallwork, largework, walk.corner + far);
    if walk.inner == 0 {
        if walk.outer == 0 {
            return combined(corner, none, none, none);
        }
        return combined(
            corner,
            none,
            record::<L>(smallwork, largework, walk.above + far),
            none,
        );
    }
    let left = record::<L>(smallwork, largework, walk.left + far);
    if walk.outer == 0 {
        return combined(corner, left, none, none);
    }
    let above = record::<L>(smallwork, largework, walk.above + far);
    let diagonal = record::<L>(smallwork, largework, walk.diagonal + far);
    combined(corner, left, above, diagonal)
}
