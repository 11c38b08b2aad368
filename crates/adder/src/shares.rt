// What a colour adds to its bin, and a cell added to one of a table.
ghost use Rattle.std.specs.Prelude.{◌≡◌, ◌≤◌};
ghost use Rattle.grid.specs.Grid.{colour_place};
ghost use Rattle.table.specs.Cell.{cell_of};
ghost use Rattle.table.specs.Layout.{laid};
ghost use Rattle.table.specs.Sound.{limit};
ghost use Rattle.adder.specs.Batch.{share};
ghost use Rattle.adder.specs.Add.{with_cell, CellFits};
ghost use Rattle.adder.specs.Inner.{squares_of, with_colour};

use crate::steps::Steps;
use pixels::colour::Rgb;
use table::cell::{Cell, plus};
use table::layout::Layout;

// Adds a cell to the one at a place.
pub fn add_at<L: Layout>(small: &mut [u32], large: &mut [u64], place: usize, c: Cell)
    requires { CellFits L.layout (laid L.layout small.old large.old) place c }
    ensures { laid L.layout small.new large.new
        ≡ with_cell L.layout (laid L.layout small.old large.old) place c }
{
    let before = L::cell(small, large, place);
    let both = plus(before, c);
    L::put(small, large, place, both);
}

// What a colour of weight w adds to its bin.
fn share_of(x: Rgb, w: u64, squares: u64) -> Cell
    requires { (w ≤ limit) × (squares ≡ squares_of x) }
    ensures { result ≡ cell_of (share (record { colour = x; weight = w })) }
{
    Cell {
        weight: w,
        sum1: w * u64::from(x.c1),
        sum2: w * u64::from(x.c2),
        sum3: w * u64::from(x.c3),
        squares: w * squares,
    }
}

// Adds one colour to a table.
pub(crate) fn add_colour<L: Layout>(
    steps: &Steps,
    small: &mut [u32],
    large: &mut [u64],
    x: Rgb,
    w: u64,
)
    requires weight { w ≤ limit }
    requires fits { CellFits L.layout (laid L.layout small.old large.old) (colour_place steps.now.g x)
        (cell_of (share (record { colour = x; weight = w }))) }
    ensures { laid L.layout small.new large.new
        ≡ with_colour L.layout steps.now.g (laid L.layout small.old large.old)
        (record { colour = x; weight = w }) }
{
    let v = steps.look_up(x);
    let p = (v % 4294967296) as usize;
    add_at::<L>(small, large, p, share_of(x, w, v / 4294967296));
}
