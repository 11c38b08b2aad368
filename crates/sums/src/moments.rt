// The moments of a table.
ghost use Rattle.std.specs.Prelude.{◌≡◌, ◌+◌, ◌*◌};
ghost use Rattle.grid.specs.Grid.{bins_of, place_of};
ghost use Rattle.table.specs.Layout.{laid, laid_view, written_in};
ghost use Rattle.sums.specs.Moments.{moments_of, ForMoments};
ghost use Rattle.sums.specs.Inner.{Before, Ready};

use crate::edge_rows::edge_row;
use crate::inner_rows::inner_row;
use grid::place::Grid;
use table::layout::Layout;

// Writes the moments of a row of bins: at the edge by one loop, elsewhere by another.
fn next_row<L: Layout>(
    small: &[u32],
    large: &[u64],
    smallwork: &mut [u32],
    largework: &mut [u64],
    g: Grid,
    r: usize,
    gr: usize,
)
    requires { Ready L.layout g (laid L.layout small.now large.now)
        (laid L.layout smallwork.old largework.old) r gr 0 }
    ensures { Before L.layout g (laid L.layout small.now large.now)
        (laid L.layout smallwork.new largework.new) (place_of g r gr 0 + g.size3) }
{
    if r == 0 || gr == 0 {
        edge_row::<L>(small, large, smallwork, largework, g, r, gr);
    } else {
        inner_row::<L>(small, large, smallwork, largework, g, r, gr);
    }
}

// Writes the moments of a plane of rows.
fn next_plane<L: Layout>(
    small: &[u32],
    large: &[u64],
    smallwork: &mut [u32],
    largework: &mut [u64],
    g: Grid,
    r: usize,
)
    requires { Ready L.layout g (laid L.layout small.now large.now)
        (laid L.layout smallwork.old largework.old) r 0 0 }
    ensures { Before L.layout g (laid L.layout small.now large.now)
        (laid L.layout smallwork.new largework.new) (place_of g r 0 0 + g.size2 * g.size3) }
{
    for gr in 0..g.size2 {
        next_row::<L>(small, large, smallwork, largework, g, r, gr);
    }
}

// Fills the work table with the moments of a table.
pub fn moments<L: Layout>(
    small: &[u32],
    large: &[u64],
    g: Grid,
    smallwork: &mut [u32],
    largework: &mut [u64],
)
    requires { ForMoments L.layout g (laid L.layout small.now large.now)
        (laid L.layout smallwork.old largework.old) }
    ensures { laid L.layout smallwork.new largework.new
        ≡ written_in L.layout (bins_of g) (moments_of g (laid_view L.layout small.now large.now)) }
{
    for r in 0..g.size1 {
        next_plane::<L>(small, large, smallwork, largework, g, r);
    }
}
