// The statistics of boxes, from the moments of their table or from its bins.
ghost use Rattle.std.specs.Prelude.{◌≡◌, ◌^◌, ◌≤◌};
ghost use Rattle.table.specs.Cell.{number_of};
ghost use Rattle.table.specs.Sound.{limit};
ghost use Rattle.table.specs.Layout.{laid, laid_view};
ghost use Rattle.boxes.specs.Box.{Within};
ghost use Rattle.bins.specs.Sum.{box_cell, CanAdd};
ghost use Rattle.sums.specs.Box.{whole, stats_from, stats_of};
ghost use Rattle.sums.specs.Moments.{CanSum};

use crate::moments_box::moments_box;
use crate::source::Source;
use bins::add_up::add_up;
use boxes::sides::Bounds;
use grid::place::Grid;
use table::cell::Cell;
use table::layout::Layout;

// The statistics of a box (`Stats`).
#[derive(Clone, Copy)]
pub struct Stats {
    pub weight: u64,
    pub sum1: u64,
    pub sum2: u64,
    pub sum3: u64,
    pub squares: f64,
}

// A whole number in f64. The machine turns an i64 into an f64 by one instruction, a u64 by several.
pub fn in_float(n: u64) -> f64
    requires { n ≤ 2 ^ 53 }
    ensures { result ≡ whole n }
{
    (n as i64) as f64
}

// Five sums as statistics, with their squares turned into f64.
pub fn stats_of(c: Cell) -> Stats
    requires { c.squares ≤ 2 ^ 53 }
    ensures { result ≡ stats_from (number_of c) }
{
    Stats {
        weight: c.weight,
        sum1: c.sum1,
        sum2: c.sum2,
        sum3: c.sum3,
        squares: in_float(c.squares),
    }
}

// The statistics of a box, from its bins.
pub fn sum_of_bins<L: Layout>(small: &[u32], large: &[u64], g: Grid, x: Bounds) -> Stats
    requires { CanAdd L.layout limit g (laid L.layout small.now large.now) x }
    ensures { result ≡ stats_of g (laid_view L.layout small.now large.now) x }
{
    stats_of(add_up::<L>(small, large, g, x))
}

// The five sums of a box, from where sums come from.
fn cell_from<L: Layout>(
    small: &[u32],
    large: &[u64],
    smallwork: &[u32],
    largework: &[u64],
    source: Source,
    g: Grid,
    x: Bounds,
) -> Cell
    requires { CanSum L.layout limit source g (laid L.layout small.now large.now)
        (laid L.layout smallwork.now largework.now) × Within g x }
    ensures { result ≡ box_cell g (laid_view L.layout small.now large.now) x }
{
    match source {
        Source::Moments => moments_box::<L>(small, large, smallwork, largework, g, x),
        Source::Bins => add_up::<L>(small, large, g, x),
    }
}

// The statistics of a box, from where sums come from.
pub fn box_sum<L: Layout>(
    small: &[u32],
    large: &[u64],
    smallwork: &[u32],
    largework: &[u64],
    source: Source,
    g: Grid,
    x: Bounds,
) -> Stats
    requires { CanSum L.layout limit source g (laid L.layout small.now large.now)
        (laid L.layout smallwork.now largework.now) × Within g x }
    ensures { result ≡ stats_of g (laid_view L.layout small.now large.now) x }
{
    stats_of(cell_from::<L>(small, large, smallwork, largework, source, g, x))
}
