// What a part of a frame is painted with.
ghost use Rattle.std.specs.Prelude.{◌≡◌, ◌+◌, ◌*◌, ◌<◌, length, get_or};
ghost use Rattle.band.specs.Band.{index_at};
ghost use Rattle.painter.specs.Inner.{PackedPalette, PaletteFits};

use crate::palette::packed_palette;
use band::LookUp;
use grid::place::Grid;

// What indices are looked up by, and a palette whose colours are one number each. Whoever paints a part of a frame
// finds them once.
#[derive(Drop)]
pub(crate) struct Brush<'a> {
    pub(crate) look_up: LookUp<'a>,
    pub(crate) packed: [u32; 256],
}

impl<'a> Brush<'a> {
    // That of a map and a palette.
    pub(crate) fn of(g: Grid, map: &'a [u8], palette: &[u8]) -> Brush<'a>
        requires { PaletteFits g map.now palette.now }
        ensures grid { result.look_up.g ≡ g }
        ensures map { result.look_up.map.now ≡ map.now }
        ensures packed { PackedPalette palette.now result.packed }
    {
        Brush {
            look_up: LookUp::of(g, map),
            packed: packed_palette(palette),
        }
    }

    // The packed colour that pixel i of a part of a frame is painted with.
    pub(crate) fn painted(&self, part: &[u8], i: usize) -> u32
        requires { 3 * i + 2 < length part.now }
        ensures { result ≡ get_or self.now.packed (index_at self.now.look_up.g self.now.look_up.map.now part.now i) 0 }
    {
        let index = usize::from(self.look_up.index_at(part, i));
        self.packed[index]
    }
}
