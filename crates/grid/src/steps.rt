// Step tables: for each value of a component, what its bin adds to the place.
ghost use Rattle.std.specs.Prelude.{◌≡◌, ◌*◌, ◌≤◌, ◌<◌};
ghost use Rattle.basics.specs.Range.{list_from};
ghost use Rattle.grid.specs.Size.{bin_of};
ghost use Rattle.grid.specs.Grid.{steps_of, Accepted};

use crate::dimension::bin_of;
use crate::place::Grid;

// Each value's bin times a stride.
fn strides(shift: u8, stride: usize) -> [usize; 256]
    requires { (shift < 8) × (stride ≤ 16384) }
    ensures { result ≡ list_from 0 256 (λ c. bin_of shift c * stride) }
{
    let mut out = [0usize; 256];
    for c in 0..256 {
        out[c] = bin_of(shift, c as u8) * stride;
    }
    out
}

// For each value of a component, what its bin in a dimension adds to the place.
pub fn steps(g: Grid, dimension: usize) -> [usize; 256]
    requires { Accepted g }
    ensures { result ≡ steps_of g dimension }
{
    match dimension {
        0 => strides(g.shift1, g.size2 * g.size3),
        1 => strides(g.shift2, g.size3),
        _ => strides(g.shift3, 1),
    }
}
