// The moments at a bin, from what the bins before it have.
ghost use Rattle.std.specs.Prelude.{◌≡◌};
ghost use Rattle.sums.specs.Inner.{joined_cell, CanJoin};

use table::cell::{Cell, minus, plus};

// What was read, joined by inclusion and exclusion: the sums along a row and the moments of the row above, and what the
// plane before has more than the row above in it.
pub(crate) fn joined(line: Cell, above: Cell, before: Cell, corner: Cell) -> Cell
    requires { CanJoin line above before corner }
    ensures { result ≡ joined_cell line above before corner }
{
    plus(plus(line, above), minus(before, corner))
}
