// The five sums of a box, from the moments of a table.
ghost use Rattle.std.specs.Prelude.{◌≡◌, ◌-◌, ◌≤◌};
ghost use Rattle.grid.specs.Grid.{place_of};
ghost use Rattle.table.specs.Sound.{limit};
ghost use Rattle.table.specs.Layout.{laid, laid_view};
ghost use Rattle.boxes.specs.Box.{Within};
ghost use Rattle.bins.specs.Sum.{box_cell};
ghost use Rattle.sums.specs.declared.source.Source.TheVariants.{Moments};
ghost use Rattle.sums.specs.Moments.{CanSum};
ghost use Rattle.sums.specs.Inner.{bin_cell, Corner};

use boxes::sides::Bounds;
use grid::place::{Grid, place};
use table::cell::{Cell, minus};
use table::layout::Layout;

// The sums of all bins below r, gr and b, given where the last row before starts. The table is named by the contract
// alone, here and in the three below, and so are the grid, r and gr in the two that are told a row.
fn corner<L: Layout>(
    small: &[u32],
    large: &[u64],
    smallwork: &[u32],
    largework: &[u64],
    g: Grid,
    r: usize,
    gr: usize,
    b: usize,
    row: usize,
) -> Cell
    requires corner { Corner L.layout g (laid L.layout small.now large.now)
        (laid L.layout smallwork.now largework.now) r gr b }
    requires row_value { row ≡ place_of g (r - 1) (gr - 1) 0 }
    ensures { result ≡ bin_cell g (laid_view L.layout small.now large.now) 0 r 0 gr 0 b }
{
    L::cell(smallwork, largework, row + (b - 1))
}

// The sums of the bins from b0 to b1, below r and gr.
fn bins_from<L: Layout>(
    small: &[u32],
    large: &[u64],
    smallwork: &[u32],
    largework: &[u64],
    g: Grid,
    r: usize,
    gr: usize,
    b0: usize,
    b1: usize,
    row: usize,
) -> Cell
    requires corner { Corner L.layout g (laid L.layout small.now large.now)
        (laid L.layout smallwork.now largework.now) r gr b1 × (b0 ≤ b1) }
    requires row_value { row ≡ place_of g (r - 1) (gr - 1) 0 }
    ensures { result ≡ bin_cell g (laid_view L.layout small.now large.now) 0 r 0 gr b0 (b1 - b0) }
{
    let upper = corner::<L>(small, large, smallwork, largework, g, r, gr, b1, row);
    if b0 == 0 {
        return upper;
    }
    minus(
        upper,
        corner::<L>(small, large, smallwork, largework, g, r, gr, b0, row),
    )
}

// The sums of the bins of a box's last two dimensions, below r.
fn slab<L: Layout>(
    small: &[u32],
    large: &[u64],
    smallwork: &[u32],
    largework: &[u64],
    g: Grid,
    r: usize,
    x: Bounds,
    plane: usize,
) -> Cell
    requires corner { Corner L.layout g (laid L.layout small.now large.now)
        (laid L.layout smallwork.now largework.now) r x.g1 x.b1 × (x.g0 ≤ x.g1) × (x.b0 ≤ x.b1) }
    requires plane_value { plane ≡ place_of g (r - 1) 0 0 }
    ensures { result
        ≡ bin_cell g (laid_view L.layout small.now large.now) 0 r
        x.g0 (x.g1 - x.g0) x.b0 (x.b1 - x.b0) }
{
    let b0 = x.b0 as usize;
    let b1 = x.b1 as usize;
    let g0 = x.g0 as usize;
    let g1 = x.g1 as usize;
    let last = plane + place(g, 0, g1 - 1, 0);
    let upper = bins_from::<L>(small, large, smallwork, largework, g, r, g1, b0, b1, last);
    if g0 == 0 {
        return upper;
    }
    let before = plane + place(g, 0, g0 - 1, 0);
    minus(
        upper,
        bins_from::<L>(small, large, smallwork, largework, g, r, g0, b0, b1, before),
    )
}

// The five sums of a box, from the moments of its table (`volume`).
pub(crate) fn moments_box<L: Layout>(
    small: &[u32],
    large: &[u64],
    smallwork: &[u32],
    largework: &[u64],
    g: Grid,
    x: Bounds,
) -> Cell
    requires { CanSum L.layout limit Moments g (laid L.layout small.now large.now)
        (laid L.layout smallwork.now largework.now) × Within g x }
    ensures { result ≡ box_cell g (laid_view L.layout small.now large.now) x }
{
    let r0 = x.r0 as usize;
    let r1 = x.r1 as usize;
    let upper = slab::<L>(
        small,
        large,
        smallwork,
        largework,
        g,
        r1,
        x,
        place(g, r1 - 1, 0, 0),
    );
    if r0 == 0 {
        return upper;
    }
    minus(
        upper,
        slab::<L>(
            small,
            large,
            smallwork,
            largework,
            g,
            r0,
            x,
            place(g, r0 - 1, 0, 0),
        ),
    )
}
