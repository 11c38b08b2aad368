// Rows with a row above them and a plane before them, which nearly all are.
ghost use Rattle.std.specs.Prelude.{◌≡◌, ◌+◌, ◌<◌};
ghost use Rattle.grid.specs.Grid.{place_of};
ghost use Rattle.table.specs.Layout.{laid, laid_view};
ghost use Rattle.sums.specs.Inner.{moment_cell, line_cell, Before, Ready, with_moment};

use crate::join::joined;
use grid::place::{Grid, place};
use table::cell::{Cell, ZEROS, plus};
use table::layout::Layout;

// The moments at a bin of such a row, from the sums along the row and what the work table has before its place p: the
// row above, the plane before, and the row above in that. Nothing is tested here, so that the loops have no branch. The
// table is named by the contract alone.
fn inner_at<L: Layout>(
    small: &[u32],
    large: &[u64],
    smallwork: &[u32],
    largework: &[u64],
    g: Grid,
    r: usize,
    gr: usize,
    b: usize,
    p: usize,
    line: Cell,
) -> Cell
    requires ready { Ready L.layout g (laid L.layout small.now large.now)
        (laid L.layout smallwork.now largework.now) r gr b }
    requires line_value { line ≡ line_cell g (laid_view L.layout small.now large.now) r gr (b + 1) }
    requires r_nonzero { (0 < r) × (0 < gr) × (p ≡ place_of g r gr b) }
    ensures { result ≡ moment_cell g (laid_view L.layout small.now large.now) (place_of g r gr b) }
{
    let plane = g.size2 * g.size3;
    let above = L::cell(smallwork, largework, p - g.size3);
    let before = L::cell(smallwork, largework, p - plane);
    let corner = L::cell(smallwork, largework, p - plane - g.size3);
    joined(line, above, before, corner)
}

// Writes the moments at a bin of such a row and answers the sums along the row through it.
fn inner_bin<L: Layout>(
    small: &[u32],
    large: &[u64],
    smallwork: &mut [u32],
    largework: &mut [u64],
    g: Grid,
    r: usize,
    gr: usize,
    b: usize,
    p: usize,
    line: Cell,
) -> Cell
    requires ready { Ready L.layout g (laid L.layout small.now large.now)
        (laid L.layout smallwork.old largework.old) r gr b }
    requires line_value { line ≡ line_cell g (laid_view L.layout small.now large.now) r gr b }
    requires r_nonzero { (0 < r) × (0 < gr) × (p ≡ place_of g r gr b) }
    ensures sums { result ≡ line_cell g (laid_view L.layout small.now large.now) r gr (b + 1) }
    ensures later { laid L.layout smallwork.new largework.new
        ≡ with_moment L.layout g (laid_view L.layout small.now large.now)
        (laid L.layout smallwork.old largework.old) (place_of g r gr b) }
{
    let sum = plus(line, L::cell(small, large, p));
    let moment = inner_at::<L>(small, large, smallwork, largework, g, r, gr, b, p, sum);
    L::put(smallwork, largework, p, moment);
    sum
}

// Writes the moments of such a row. It finds its first place itself: with the place handed on from row to row, the compiler
// made a longer loop in the narrow layout.
pub(crate) fn inner_row<L: Layout>(
    small: &[u32],
    large: &[u64],
    smallwork: &mut [u32],
    largework: &mut [u64],
    g: Grid,
    r: usize,
    gr: usize,
)
    requires ready { Ready L.layout g (laid L.layout small.now large.now)
        (laid L.layout smallwork.old largework.old) r gr 0 }
    requires r_nonzero { (0 < r) × (0 < gr) }
    ensures { Before L.layout g (laid L.layout small.now large.now)
        (laid L.layout smallwork.new largework.new) (place_of g r gr 0 + g.size3) }
{
    let start = place(g, r, gr, 0);
    let mut line = ZEROS;
    for b in 0..g.size3 {
        line = inner_bin::<L>(
            small,
            large,
            smallwork,
            largework,
            g,
            r,
            gr,
            b,
            start + b,
            line,
        );
    }
}
