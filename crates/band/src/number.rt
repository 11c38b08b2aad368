// The answer to a band of a frame.
ghost use Rattle.std.specs.Prelude.{◌≡◌, ℕ, ◌+◌, ◌≤◌, ltb};
ghost use Rattle.basics.specs.Refusal.{answer_of};
ghost use Rattle.grid.specs.Grid.{Accepted};
ghost use Rattle.band.specs.Band.{all_below, band_number};

use basics::refusal::Refusal;
use grid::place::{Grid, bins};

// The largest entry of a map, or 0.
fn largest(map: &[u8]) -> u8
    ensures { (c : ℕ) → 1 ≤ c → ltb result c ≡ all_below c map.now }
{
    let mut top = 0;
    for entry in map {
        top = top.max(*entry);
    }
    top
}

// Whether a band reaches past a frame of n pixels. Its first pixel and its length can add up past the largest number.
fn reaches_past(n: usize, first: usize, pixels: usize) -> bool
    ensures { result ≡ ltb n (first + pixels) }
{
    n < first || n - first < pixels
}

// The answer to a band of a frame of some bytes, with a palette of some colours. Whether the index buffer fits, or the
// palette's last bytes do, the call has found out itself.
pub fn band_number(
    g: Grid,
    map: &[u8],
    palette_colours: usize,
    fits: bool,
    bytes: usize,
    first: usize,
    pixels: usize,
) -> Result<(), Refusal>
    requires { Accepted g }
    ensures { answer_of result ≡ band_number g map.now palette_colours fits bytes first pixels }
{
    if bytes % 3 != 0 {
        return Err(Refusal::SplitColour);
    }
    if map.len() != bins(g)
        || palette_colours < 1
        || 256 < palette_colours
        || !fits
        || reaches_past(bytes / 3, first, pixels)
    {
        return Err(Refusal::Length);
    }
    if palette_colours <= usize::from(largest(map)) {
        return Err(Refusal::MapEntry);
    }
    Ok(())
}
