// The five numbers of a box: its bins are added up one after the other, in the order of their places.
ghost use Rattle.std.specs.Prelude.{◌≡◌, ◌-◌};
ghost use Rattle.table.specs.Cell.{cell_of};
ghost use Rattle.table.specs.Sound.{limit};
ghost use Rattle.table.specs.Layout.{laid, laid_view};
ghost use Rattle.bins.specs.Sum.{box_cell, CanAdd};
ghost use Rattle.bins.specs.Inner.{row_sum, plane_sum, InPlane, InRow};

use boxes::sides::Bounds;
use grid::place::{Grid, place};
use table::cell::{Cell, ZEROS, plus};
use table::layout::Layout;

// The bins of one row of a box.
fn add_row<L: Layout>(small: &[u32], large: &[u64], g: Grid, x: Bounds, r: usize, gr: usize) -> Cell
    requires { InRow L.layout limit g (laid L.layout small.now large.now) x r gr }
    ensures { result
        ≡ cell_of
        (row_sum g (laid_view L.layout small.now large.now) r gr x.b0 (x.b1 - x.b0)) }
{
    let mut sum = ZEROS;
    for b in x.b0 as usize..x.b1 as usize {
        sum = plus(sum, L::cell(small, large, place(g, r, gr, b)));
    }
    sum
}

// The rows of one plane of a box.
fn add_plane<L: Layout>(small: &[u32], large: &[u64], g: Grid, x: Bounds, r: usize) -> Cell
    requires { InPlane L.layout limit g (laid L.layout small.now large.now) x r }
    ensures { result
        ≡ cell_of
        (plane_sum g (laid_view L.layout small.now large.now) x r x.g0 (x.g1 - x.g0)) }
{
    let mut sum = ZEROS;
    for gr in x.g0 as usize..x.g1 as usize {
        sum = plus(sum, add_row::<L>(small, large, g, x, r, gr));
    }
    sum
}

// The planes of a box.
pub fn add_up<L: Layout>(small: &[u32], large: &[u64], g: Grid, x: Bounds) -> Cell
    requires { CanAdd L.layout limit g (laid L.layout small.now large.now) x }
    ensures { result ≡ box_cell g (laid_view L.layout small.now large.now) x }
{
    let mut sum = ZEROS;
    for r in x.r0 as usize..x.r1 as usize {
        sum = plus(sum, add_plane::<L>(small, large, g, x, r));
    }
    sum
}
