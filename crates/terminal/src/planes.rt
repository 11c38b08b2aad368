// The table of the colours, and its planes: the reds, the greens or the blues in a row.
ghost use Rattle.std.specs.Prelude.{◌≡◌, ◌<◌};
ghost use Rattle.terminal.specs.Colours.{fixed_table};
ghost use Rattle.terminal.specs.Inner.{plane_of};

use crate::fixed::COLOURS;

// The table. No other function names the constant, which is written out wherever it is named.
pub(crate) fn colours() -> [u8; 720]
    ensures { result ≡ fixed_table }
{
    COLOURS
}

// Component d of each colour.
pub(crate) fn plane(table: &[u8; 720], d: usize) -> [u8; 240]
    requires { (table.now ≡ fixed_table) × (d < 3) }
    ensures { result ≡ plane_of d }
{
    let mut out = [0; 240];
    for k in 0..240 {
        out[k] = table[3 * k + d];
    }
    out
}
