// The call: a band is refused, or painted.
ghost use Rattle.std.specs.Prelude.{◌≡◌, ◌+◌, ◌*◌, ◌≤◌, length};
ghost use Rattle.basics.specs.Refusal.{answer_of};
ghost use Rattle.band.specs.Band.{write_band};
ghost use Rattle.painter.specs.Paint.{paint_at, paint_number, paint_later};
ghost use Rattle.painter.specs.Inner.{PaletteFits};

use crate::blocks::paint_part;
use crate::brush::Brush;
use band::band_number;
use basics::refusal::Refusal;
use grid::place::{Grid, grid_of};

// Hands the band of the frame on as a part.
fn paint_band(g: Grid, map: &[u8], palette: &[u8], frame: &mut [u8], first: usize, pixels: usize)
    requires fits { PaletteFits g map.now palette.now }
    requires inside { 3 * (first + pixels) ≤ length frame.old }
    ensures { frame.new
        ≡ write_band (3 * first) (3 * pixels)
        (paint_at g map.now palette.now frame.old) frame.old }
{
    let brush = Brush::of(g, map, palette);
    let from = 3 * first;
    let to = from + 3 * pixels;
    paint_part(&brush, &mut frame[from..to]);
}

// The palette's colour at each pixel's index, in the place of a band of a frame.
pub fn paint(
    b1: usize,
    b2: usize,
    b3: usize,
    map: &[u8],
    palette: &[u8],
    frame: &mut [u8],
    first: usize,
    pixels: usize,
) -> Result<(), Refusal>
    ensures number { answer_of result
        ≡ paint_number b1 b2 b3 map.now palette.now frame.old first pixels }
    ensures later { frame.new
        ≡ paint_later b1 b2 b3 map.now palette.now frame.old first pixels }
{
    let g = grid_of(b1, b2, b3).ok_or(Refusal::Grid)?;
    let palette_colours = palette.len() / 3;
    let whole = palette.len() % 3 == 0;
    band_number(g, map, palette_colours, whole, frame.len(), first, pixels)?;
    paint_band(g, map, palette, frame, first, pixels);
    Ok(())
}
