// The wide layout: how long a lent table is, and where it has the five numbers of a bin.
ghost use Rattle.std.specs.Prelude.{◌≡◌};
ghost use Rattle.grid.specs.Grid.{Accepted, bins_of};
ghost use Rattle.table.specs.Cell.{cell_of};
ghost use Rattle.table.specs.Table.{table_len, view_of, put_at, HasCell, Held};

use crate::cell::Cell;
use grid::place::{Grid, bins};

// How many numbers a table of a grid has.
pub fn table_len(g: Grid) -> usize
    requires { Accepted g }
    ensures { result ≡ table_len (bins_of g) }
{
    5 * bins(g)
}

// The cell at a place.
pub fn cell_at(table: &[u64], place: usize) -> Cell
    requires { HasCell table.now place }
    ensures { result ≡ cell_of (view_of table.now place) }
{
    let at = 5 * place;
    Cell {
        weight: table[at],
        sum1: table[at + 1],
        sum2: table[at + 2],
        sum3: table[at + 3],
        squares: table[at + 4],
    }
}

// Writes a cell at a place.
pub fn put_at(table: &mut [u64], place: usize, c: Cell)
    requires { HasCell table.old place × Held c }
    ensures { table.new ≡ put_at table.old place c }
{
    let at = 5 * place;
    table[at] = c.weight;
    table[at + 1] = c.sum1;
    table[at + 2] = c.sum2;
    table[at + 3] = c.sum3;
    table[at + 4] = c.squares;
}
