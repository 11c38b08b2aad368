// The map: the index of a box at each bin of it, plane by plane, row by row.
ghost use Rattle.std.specs.Prelude.{◌≡◌, ◌≤◌, length};
ghost use Rattle.grid.specs.Grid.{bins_of};
ghost use Rattle.boxes.specs.Box.{Within};
ghost use Rattle.boxes.specs.Holds.{lies, holds_at, slice};
ghost use Rattle.cutter.specs.Inner.{fill_where, fill_of, Plane};

use boxes::sides::Bounds;
use grid::place::{Grid, place};

// Writes an index at each place from `at` to `end`.
fn fill(map: &mut [u8], at: usize, end: usize, index: u8)
    requires { (at ≤ end) × (end ≤ length map.old) }
    ensures { map.new ≡ fill_where (lies at end) index map.old }
{
    map[at..end].fill(index);
}

// Writes an index at the bins of a box in its plane r.
fn fill_plane(map: &mut [u8], g: Grid, x: Bounds, r: usize, index: u8)
    requires { Plane g x r map.old }
    ensures { map.new ≡ fill_where (holds_at g (slice x 0 r)) index map.old }
{
    let b0 = x.b0 as usize;
    let b1 = x.b1 as usize;
    for gr in x.g0 as usize..x.g1 as usize {
        let at = place(g, r, gr, 0);
        fill(map, at + b0, at + b1, index);
    }
}

// Writes an index at the bins of a box.
pub(crate) fn fill_box(map: &mut [u8], g: Grid, x: Bounds, index: u8)
    requires { Within g x × (length map.old ≡ bins_of g) }
    ensures { map.new ≡ fill_of g x index map.old }
{
    for r in x.r0 as usize..x.r1 as usize {
        fill_plane(map, g, x, r, index);
    }
}
