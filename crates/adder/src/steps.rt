// A step table that carries the squares: three looks give the place of a colour and its squares.
ghost use Rattle.std.specs.Prelude.{◌≡◌, ◌+◌, ◌*◌, ◌<◌, length};
ghost use Rattle.grid.specs.Grid.{Accepted, colour_place};
ghost use Rattle.adder.specs.Add.{step_table, StepTable};
ghost use Rattle.adder.specs.Inner.{squares_of, with_dimension};

use grid::place::Grid;
use grid::steps::steps;
use pixels::colour::Rgb;

// Fills in the part of one dimension.
fn fill_part(table: &mut [u64; 768], g: Grid, dimension: usize)
    requires { Accepted g × (length table.old ≡ 768) × (dimension < 3) }
    ensures { table.new ≡ with_dimension g dimension table.old }
{
    let s = steps(g, dimension);
    let at = 256 * dimension;
    for c in 0..256 {
        table[at + c] = s[c] as u64 + 4294967296 * (c * c) as u64;
    }
}

// For each dimension and each value of a component its step, and 2^32 times its square: one look gives both, and one
// pointer leads to all. Whoever adds colours to a table of a grid finds them once.
#[derive(Drop)]
pub struct Steps {
    pub g: Grid,
    pub numbers: [u64; 768],
    ghost filled: { StepTable g numbers },
}

impl Steps {
    // Those of a grid.
    pub fn of(g: Grid) -> Steps
        requires { Accepted g }
        ensures grid { result.g ≡ g }
        ensures numbers { result.numbers ≡ step_table g }
    {
        let mut numbers = [0u64; 768];
        fill_part(&mut numbers, g, 0);
        fill_part(&mut numbers, g, 1);
        fill_part(&mut numbers, g, 2);
        Steps { g, numbers }
    }

    // The place of a colour, and 2^32 times its squares.
    pub(crate) fn look_up(&self, x: Rgb) -> u64
        ensures { result ≡ colour_place self.now.g x + 4294967296 * squares_of x }
    {
        let i1 = usize::from(x.c1);
        let i2 = 256 + usize::from(x.c2);
        let i3 = 512 + usize::from(x.c3);
        self.numbers[i1] + self.numbers[i2] + self.numbers[i3]
    }
}
