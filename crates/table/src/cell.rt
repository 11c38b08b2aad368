// The five numbers of a bin.
ghost use Rattle.std.specs.Prelude.{◌≡◌};
ghost use Rattle.table.specs.Cell.{plus_cell, minus_cell, SumsFit, AtLeast};

// The five numbers of a bin: weight, component sums, squares.
#[derive(Clone, Copy, PartialEq, Eq)]
pub struct Cell {
    pub weight: u64,
    pub sum1: u64,
    pub sum2: u64,
    pub sum3: u64,
    pub squares: u64,
}

// A cell of zeros.
pub const ZEROS: Cell = Cell {
    weight: 0,
    sum1: 0,
    sum2: 0,
    sum3: 0,
    squares: 0,
};

// Two cells added, number by number.
pub fn plus(c: Cell, d: Cell) -> Cell
    requires { SumsFit c d }
    ensures { result ≡ plus_cell c d }
{
    Cell {
        weight: c.weight + d.weight,
        sum1: c.sum1 + d.sum1,
        sum2: c.sum2 + d.sum2,
        sum3: c.sum3 + d.sum3,
        squares: c.squares + d.squares,
    }
}

// One cell less another, number by number.
pub fn minus(c: Cell, d: Cell) -> Cell
    requires { AtLeast c d }
    ensures { result ≡ minus_cell c d }
{
    Cell {
        weight: c.weight - d.weight,
        sum1: c.sum1 - d.sum1,
        sum2: c.sum2 - d.sum2,
        sum3: c.sum3 - d.sum3,
        squares: c.squares - d.squares,
    }
}
