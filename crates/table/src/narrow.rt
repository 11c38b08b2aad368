// The narrow layout: weight and sums of a bin in one list, its squares in another.
ghost use Rattle.std.specs.Prelude.{◌≡◌};
ghost use Rattle.table.specs.Cell.{cell_of};
ghost use Rattle.table.specs.Narrow.{narrow_table, narrow_view, narrow_put, NarrowCell, NarrowHeld};

use crate::cell::Cell;

// The cell at a place.
pub(crate) fn narrow_cell(sums: &[u32], squares: &[u64], place: usize) -> Cell
    requires { NarrowCell (narrow_table sums.now squares.now) place }
    ensures { result ≡ cell_of (narrow_view (narrow_table sums.now squares.now) place) }
{
    let at = 4 * place;
    Cell {
        weight: sums[at] as u64,
        sum1: sums[at + 1] as u64,
        sum2: sums[at + 2] as u64,
        sum3: sums[at + 3] as u64,
        squares: squares[place],
    }
}

// Writes a cell at a place.
pub(crate) fn put_narrow(sums: &mut [u32], squares: &mut [u64], place: usize, c: Cell)
    requires { NarrowCell (narrow_table sums.old squares.old) place × NarrowHeld c }
    ensures { narrow_table sums.new squares.new
        ≡ narrow_put (narrow_table sums.old squares.old) place c }
{
    let at = 4 * place;
    sums[at] = c.weight as u32;
    sums[at + 1] = c.sum1 as u32;
    sums[at + 2] = c.sum2 as u32;
    sums[at + 3] = c.sum3 as u32;
    squares[place] = c.squares;
}
