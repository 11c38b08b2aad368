// How the bins of a dimension are walked through in the moments.
ghost use Rattle.std.specs.Prelude.{◌≡◌, ◌-◌, ◌≤◌};
ghost use Rattle.grid.specs.Grid.{size_at, stride_at, Accepted};
ghost use Rattle.boxes.specs.Box.{Within};
ghost use Rattle.spread.specs.Inner.{outer_of, inner_of, start_of, walk_of};

use boxes::sides::Bounds;
use grid::place::{Grid, place};

// The two other dimensions, in order.
#[tactic(auto, using(grid::proofs::Places::choose_third), unfolding(crate::specs::Inner::outer_of, basics::specs::Dimension::choose))]
fn outer_of(dimension: u8) -> u8
    ensures { result ≡ outer_of dimension }
{
    match dimension {
        0 => 1,
        _ => 0,
    }
}

#[tactic(auto, using(grid::proofs::Places::choose_third), unfolding(crate::specs::Inner::inner_of, basics::specs::Dimension::choose))]
fn inner_of(dimension: u8) -> u8
    ensures { result ≡ inner_of dimension }
{
    match dimension {
        0 | 1 => 2,
        _ => 1,
    }
}

// What one bin more in a dimension adds to the place.
#[tactic(auto, using(grid::proofs::Places::choose_third, grid::proofs::Places::plane_high), unfolding(grid::specs::Grid::stride_at, basics::specs::Dimension::choose))]
fn stride_of(g: Grid, dimension: u8) -> usize
    requires { Accepted g }
    ensures { result ≡ stride_at g dimension }
{
    match dimension {
        0 => g.size2 * g.size3,
        1 => g.size3,
        _ => 1,
    }
}

// The place of the last bins before two ends of the other dimensions, at bin 0 of a dimension. Before end 0 there is
// none; bin 0 stands for it, and is not read.
fn start_of(g: Grid, dimension: u8, outer: u8, inner: u8) -> usize
    requires { Accepted g × (outer ≤ size_at g (outer_of dimension)) × (inner ≤ size_at g (inner_of dimension)) }
    ensures { result ≡ start_of g dimension outer inner }
{
    let a = usize::from(outer.saturating_sub(1));
    let b = usize::from(inner.saturating_sub(1));
    match dimension {
        0 => place(g, 0, a, b),
        1 => place(g, a, 0, b),
        _ => place(g, a, b, 0),
    }
}

// What stays the same from bin to bin of a dimension: the step, the box's first bins in the two other dimensions, and
// the four places that are read, at bin 0.
#[derive(Clone, Copy)]
pub(crate) struct Walk {
    pub(crate) step: usize,
    pub(crate) outer: u8,
    pub(crate) inner: u8,
    pub(crate) corner: usize,
    pub(crate) above: usize,
    pub(crate) left: usize,
    pub(crate) diagonal: usize,
}

pub(crate) fn walk_of(g: Grid, x: Bounds, dimension: u8) -> Walk
    requires { Within g x }
    ensures { result ≡ walk_of g x dimension }
{
    let outer = x.first_bin(outer_of(dimension));
    let inner = x.first_bin(inner_of(dimension));
    let outer_end = x.end_bin(outer_of(dimension));
    let inner_end = x.end_bin(inner_of(dimension));
    Walk {
        step: stride_of(g, dimension),
        outer,
        inner,
        corner: start_of(g, dimension, outer_end, inner_end),
        above: start_of(g, dimension, outer, inner_end),
        left: start_of(g, dimension, outer_end, inner),
        diagonal: start_of(g, dimension, outer, inner),
    }
}
