// The two layouts of a table, each a type: what is written for both is compiled for each, so that no loop asks for the
// layout. Two lists are lent, and the wide layout leaves the small one empty.
ghost use Rattle.std.specs.Prelude.{◌≡◌};
ghost use Rattle.grid.specs.Grid.{Accepted, bins_of};
ghost use Rattle.table.specs.Layouts.{Layout, Wide, Narrow};
ghost use Rattle.table.specs.Cell.{cell_of};
ghost use Rattle.table.specs.Layout.{laid, laid_view, put_in, lengths_fit, CellIn, HeldIn};
ghost use Rattle.table.specs.Sound.{limit_of, passed_number};
ghost use Rattle.basics.specs.Refusal.{number_of};

use crate::cell::Cell;
use crate::narrow::{narrow_cell, put_narrow};
use crate::sound::{LIMIT, NARROW_LIMIT};
use crate::wide::{cell_at, put_at, table_len};
use basics::refusal::Refusal;
use grid::place::{Grid, bins};

// How a table is laid out: all five numbers of a bin in the large list, or all but the squares in the small one.
pub trait Layout {
    ghost layout: { Layout };

    // Whether lists of these lengths make a table of a grid.
    fn fits(small: usize, large: usize, g: Grid) -> bool
        requires { Accepted g }
        ensures { result ≡ lengths_fit layout small large (bins_of g) };

    // The cell at a place.
    fn cell(small: &[u32], large: &[u64], place: usize) -> Cell
        requires { CellIn layout (laid layout small.now large.now) place }
        ensures { result ≡ cell_of (laid_view layout small.now large.now place) };

    // Writes a cell at a place.
    fn put(small: &mut [u32], large: &mut [u64], place: usize, c: Cell)
        requires { CellIn layout (laid layout small.old large.old) place × HeldIn layout c }
        ensures { laid layout small.new large.new
            ≡ put_in layout (laid layout small.old large.old) place c };

    // The largest total.
    fn limit() -> u64
        ensures { result ≡ limit_of layout };

    // The refusal of a total past it.
    fn too_heavy() -> Refusal
        ensures { number_of result ≡ passed_number layout };
}

// All five numbers of a bin in the large list.
#[derive(Clone, Copy)]
pub struct Wide;

// All but the squares in the small list.
#[derive(Clone, Copy)]
pub struct Narrow;

impl Layout for Wide {
    ghost layout = { Wide };

    fn fits(_small: usize, large: usize, g: Grid) -> bool {
        large == table_len(g)
    }

    fn cell(_small: &[u32], large: &[u64], place: usize) -> Cell {
        cell_at(large, place)
    }

    fn put(_small: &mut [u32], large: &mut [u64], place: usize, c: Cell) {
        put_at(large, place, c);
    }

    fn limit() -> u64 {
        LIMIT
    }

    fn too_heavy() -> Refusal {
        Refusal::TooHeavy
    }
}

impl Layout for Narrow {
    ghost layout = { Narrow };

    fn fits(small: usize, large: usize, g: Grid) -> bool {
        let n = bins(g);
        small == 4 * n && large == n
    }

    fn cell(small: &[u32], large: &[u64], place: usize) -> Cell {
        narrow_cell(small, large, place)
    }

    fn put(small: &mut [u32], large: &mut [u64], place: usize, c: Cell) {
        put_narrow(small, large, place, c);
    }

    fn limit() -> u64 {
        NARROW_LIMIT
    }

    fn too_heavy() -> Refusal {
        Refusal::TooHeavyNarrow
    }
}
