// Rows at the edge of the grid: those of the first plane, and the first of each other plane.
ghost use Rattle.std.specs.Prelude.{◌≡◌, ◌+◌};
ghost use Rattle.grid.specs.Grid.{place_of};
ghost use Rattle.table.specs.Layout.{laid, laid_view};
ghost use Rattle.sums.specs.Inner.{moment_cell, line_cell, Before, Ready, AtEdge, with_moment};

use crate::join::joined;
use grid::place::{Grid, place};
use table::cell::{Cell, ZEROS, plus};
use table::layout::Layout;

// The moments at a bin of such a row, from the sums along the row and what the work table has before it; a row or a
// plane that is not there counts as zeros. The table is named by the contract alone.
fn edge_at<L: Layout>(
    small: &[u32],
    large: &[u64],
    smallwork: &[u32],
    largework: &[u64],
    g: Grid,
    r: usize,
    gr: usize,
    b: usize,
    line: Cell,
) -> Cell
    requires ready { Ready L.layout g (laid L.layout small.now large.now)
        (laid L.layout smallwork.now largework.now) r gr b }
    requires line_value { line ≡ line_cell g (laid_view L.layout small.now large.now) r gr (b + 1) }
    requires at_edge { AtEdge r gr }
    ensures { result ≡ moment_cell g (laid_view L.layout small.now large.now) (place_of g r gr b) }
{
    if r == 0 {
        if gr == 0 {
            return joined(line, ZEROS, ZEROS, ZEROS);
        }
        let above = L::cell(smallwork, largework, place(g, r, gr - 1, b));
        return joined(line, above, ZEROS, ZEROS);
    }
    let before = L::cell(smallwork, largework, place(g, r - 1, gr, b));
    joined(line, ZEROS, before, ZEROS)
}

// Writes the moments at a bin of such a row and answers the sums along the row through it.
fn edge_bin<L: Layout>(
    small: &[u32],
    large: &[u64],
    smallwork: &mut [u32],
    largework: &mut [u64],
    g: Grid,
    r: usize,
    gr: usize,
    b: usize,
    line: Cell,
) -> Cell
    requires ready { Ready L.layout g (laid L.layout small.now large.now)
        (laid L.layout smallwork.old largework.old) r gr b }
    requires line_value { line ≡ line_cell g (laid_view L.layout small.now large.now) r gr b }
    requires at_edge { AtEdge r gr }
    ensures sums { result ≡ line_cell g (laid_view L.layout small.now large.now) r gr (b + 1) }
    ensures later { laid L.layout smallwork.new largework.new
        ≡ with_moment L.layout g (laid_view L.layout small.now large.now)
        (laid L.layout smallwork.old largework.old) (place_of g r gr b) }
{
    let p = place(g, r, gr, b);
    let sum = plus(line, L::cell(small, large, p));
    let moment = edge_at::<L>(small, large, smallwork, largework, g, r, gr, b, sum);
    L::put(smallwork, largework, p, moment);
    sum
}

// Writes the moments of such a row.
pub(crate) fn edge_row<L: Layout>(
    small: &[u32],
    large: &[u64],
    smallwork: &mut [u32],
    largework: &mut [u64],
    g: Grid,
    r: usize,
    gr: usize,
)
    requires ready { Ready L.layout g (laid L.layout small.now large.now)
        (laid L.layout smallwork.old largework.old) r gr 0 }
    requires at_edge { AtEdge r gr }
    ensures { Before L.layout g (laid L.layout small.now large.now)
        (laid L.layout smallwork.new largework.new) (place_of g r gr 0 + g.size3) }
{
    let mut line = ZEROS;
    for b in 0..g.size3 {
        line = edge_bin::<L>(small, large, smallwork, largework, g, r, gr, b, line);
    }
}
