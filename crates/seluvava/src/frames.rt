// Mapping and painting bands of a frame.
ghost use Rattle.std.specs.Prelude.{◌≡◌};
ghost use Rattle.mapper.specs.Map.{map_number, map_later};
ghost use Rattle.painter.specs.Paint.{paint_number, paint_later};

use basics::refusal::answer;

// The index of each pixel of a band of a frame, into the same band of the index buffer.
pub fn seluvava_map(
    b1: usize,
    b2: usize,
    b3: usize,
    map: &[u8],
    palette_colours: usize,
    frame: &[u8],
    indices: &mut [u8],
    first: usize,
    pixels: usize,
) -> u8
    ensures number { result
        ≡ map_number b1 b2 b3 map.now palette_colours frame.now indices.old
        first pixels }
    ensures later { indices.new
        ≡ map_later b1 b2 b3 map.now palette_colours frame.now indices.old
        first pixels }
{
    answer(mapper::call::map(
        b1,
        b2,
        b3,
        map,
        palette_colours,
        frame,
        indices,
        first,
        pixels,
    ))
}

// The palette's colour at each pixel's index, in the place of a band of a frame.
pub fn seluvava_paint(
    b1: usize,
    b2: usize,
    b3: usize,
    map: &[u8],
    palette: &[u8],
    frame: &mut [u8],
    first: usize,
    pixels: usize,
) -> u8
    ensures number { result
        ≡ paint_number b1 b2 b3 map.now palette.now frame.old first pixels }
    ensures later { frame.new
        ≡ paint_later b1 b2 b3 map.now palette.now frame.old first pixels }
{
    answer(painter::call::paint(b1, b2, b3, map, palette, frame, first, pixels))
}
