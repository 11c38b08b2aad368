// The call: a band is refused, or mapped.
ghost use Rattle.std.specs.Prelude.{◌≡◌, ◌+◌, ◌*◌, ◌≤◌, length};
ghost use Rattle.basics.specs.Refusal.{answer_of};
ghost use Rattle.band.specs.Band.{index_at, write_band};
ghost use Rattle.band.specs.LookUp.{MapOf};
ghost use Rattle.mapper.specs.Map.{map_number, map_later};

use crate::blocks::map_part;
use band::{LookUp, band_number};
use basics::refusal::Refusal;
use grid::place::{Grid, grid_of};

// Hands the band of the frame and of the index buffer on as parts.
fn map_band(g: Grid, map: &[u8], frame: &[u8], indices: &mut [u8], first: usize, pixels: usize)
    requires of_grid { MapOf g map.now }
    requires inside { (length frame.now ≡ 3 * length indices.old) × (first + pixels ≤ length indices.old) }
    ensures { indices.new
        ≡ write_band first pixels (index_at g map.now frame.now) indices.old }
{
    let look_up = LookUp::of(g, map);
    let end = first + pixels;
    let part = &frame[3 * first..3 * end];
    map_part(&look_up, part, &mut indices[first..end]);
}

// The index of each pixel of a band of a frame, into the same band of the index buffer.
pub fn map(
    b1: usize,
    b2: usize,
    b3: usize,
    map: &[u8],
    palette_colours: usize,
    frame: &[u8],
    indices: &mut [u8],
    first: usize,
    pixels: usize,
) -> Result<(), Refusal>
    ensures number { answer_of result
        ≡ map_number b1 b2 b3 map.now palette_colours frame.now indices.old
        first pixels }
    ensures later { indices.new
        ≡ map_later b1 b2 b3 map.now palette_colours frame.now indices.old
        first pixels }
{
    let g = grid_of(b1, b2, b3).ok_or(Refusal::Grid)?;
    let fits = indices.len() == frame.len() / 3;
    band_number(g, map, palette_colours, fits, frame.len(), first, pixels)?;
    map_band(g, map, frame, indices, first, pixels);
    Ok(())
}
