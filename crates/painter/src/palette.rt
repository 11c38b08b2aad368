// A palette whose colours are one number each.
ghost use Rattle.std.specs.Prelude.{◌≡◌, ℕ, ◌≤◌, length};
ghost use Rattle.pixels.specs.Colour.{component_at};
ghost use Rattle.painter.specs.Inner.{unpacked, PackedPalette};

use pixels::colour::{Rgb, colour};

// A colour as one number.
fn pack(x: Rgb) -> u32
    ensures { (d : ℕ) → unpacked result d ≡ component_at x d }
{
    u32::from(x.c1) + 256 * u32::from(x.c2) + 65536 * u32::from(x.c3)
}

// Each colour of a palette as one number, so that painting a pixel reads its colour at once.
pub(crate) fn packed_palette(palette: &[u8]) -> [u32; 256]
    requires { length palette.now ≤ 768 }
    ensures { PackedPalette palette.now result }
{
    let mut out = [0u32; 256];
    for i in 0..palette.len() / 3 {
        out[i] = pack(colour(palette, i));
    }
    out
}
