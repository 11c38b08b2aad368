// The results of all boxes: their colours, their counts, their remainders, and the index of the box of each bin.
ghost use Rattle.std.specs.Prelude.{◌≡◌, ◌*◌, ◌≤◌, length};
ghost use Rattle.grid.specs.Grid.{bins_of};
ghost use Rattle.table.specs.Layout.{laid, laid_view};
ghost use Rattle.table.specs.Sound.{limit};
ghost use Rattle.sums.specs.Moments.{CanSum};
ghost use Rattle.cutter.specs.Palette.{palette_later, counts_later, remainders_later};
ghost use Rattle.cutter.specs.Cut.{list_of};
ghost use Rattle.cutter.specs.Inner.{fill_from, Placed, Found};

use crate::map::fill_box;
use crate::palette::put_result;
use grid::place::Grid;
use rounds::gather::Boxes;
use sums::source::Source;
use table::layout::Layout;

// Writes colours, counts and remainders of all boxes.
pub(crate) fn put_results<L: Layout>(
    small: &[u32],
    large: &[u64],
    smallwork: &[u32],
    largework: &[u64],
    source: Source,
    g: Grid,
    b: &Boxes,
    palette: &mut [u8],
    counts: &mut [u32],
    remainders: &mut [u32],
)
    requires can_sum { CanSum L.layout limit source g (laid L.layout small.now large.now)
        (laid L.layout smallwork.now largework.now) × Found g (laid_view L.layout small.now large.now) b.now }
    requires boxes_in_bounds { (3 * b.now.boxes ≤ length palette.old) × (b.now.boxes ≤ length counts.old)
        × (3 * b.now.boxes ≤ length remainders.old) }
    ensures palette { palette.new
        ≡ palette_later g (laid_view L.layout small.now large.now) (list_of b.now.boxes b.now.places)
        palette.old }
    ensures counts { counts.new
        ≡ counts_later g (laid_view L.layout small.now large.now) (list_of b.now.boxes b.now.places)
        counts.old }
    ensures remainders { remainders.new
        ≡ remainders_later g (laid_view L.layout small.now large.now) (list_of b.now.boxes b.now.places)
        remainders.old }
{
    for i in 0..b.boxes {
        let x = b.places[i];
        put_result::<L>(
            small, large, smallwork, largework, source, g, x.bounds, i, palette, counts, remainders,
        );
    }
}

// Writes the index of each box at its bins.
pub(crate) fn fill_boxes(g: Grid, b: &Boxes, map: &mut [u8])
    requires { Placed g b.now × (length map.old ≡ bins_of g) }
    ensures { map.new ≡ fill_from g 0 (list_of b.now.boxes b.now.places) map.old }
{
    for at in 0..b.boxes {
        fill_box(map, g, b.places[at].bounds, at as u8);
    }
}
