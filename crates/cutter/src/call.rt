// The call cut: what it refuses, and what it hands back and leaves behind.
ghost use Rattle.std.specs.Prelude.{◌≡◌, true};
ghost use Rattle.grid.specs.Grid.{Accepted, bins_of};
ghost use Rattle.table.specs.Layout.{laid, laid_view, is_sized_in, TableOfIn};
ghost use Rattle.table.specs.Sound.{limit_of, sound};
ghost use Rattle.rounds.specs.Loop.{boxes_of};
ghost use Rattle.cutter.specs.Cut.{buffers_in, lengths_of, CanCut, LengthsFit};
ghost use Rattle.cutter.specs.Cut.{work_fits, work_later, later_on};
ghost use Rattle.cutter.specs.Cut.{no_boxes, record_of, cut_record_in, cut_later_in};

use crate::number::check;
use crate::results::{fill_boxes, put_results};
use basics::refusal::Refusal;
use boxes::sides::Bounds;
use grid::place::{Grid, grid_of};
use rounds::gather::{BoxSpread, Boxes, cut_boxes};
use sums::moments::moments;
use sums::source::Source;
use table::layout::Layout;

// Readies the work table for a source of sums: with the moments, or not at all.
fn ready<L: Layout>(
    source: Source,
    small: &[u32],
    large: &[u64],
    g: Grid,
    smallwork: &mut [u32],
    largework: &mut [u64],
)
    requires { TableOfIn L.layout g (laid L.layout small.now large.now)
        × (sound (limit_of L.layout) g (laid_view L.layout small.now large.now) ≡ true)
        × (work_fits source (is_sized_in L.layout (laid L.layout smallwork.old largework.old) (bins_of g)) ≡ true) }
    ensures { laid L.layout smallwork.new largework.new
        ≡ work_later source L.layout g (laid_view L.layout small.now large.now)
        (laid L.layout smallwork.old largework.old) }
{
    match source {
        Source::Moments => moments::<L>(small, large, g, smallwork, largework),
        Source::Bins => {}
    }
}

// A cut that nothing refuses.
fn cut_on<L: Layout>(
    source: Source,
    small: &[u32],
    large: &[u64],
    g: Grid,
    k: usize,
    smallwork: &mut [u32],
    largework: &mut [u64],
    palette: &mut [u8],
    counts: &mut [u32],
    remainders: &mut [u32],
    map: &mut [u8],
) -> Boxes
    requires accepted { Accepted g × CanCut (limit_of L.layout) g k (laid_view L.layout small.now large.now) }
    requires lengths_fit { LengthsFit source g k (is_sized_in L.layout (laid L.layout small.now large.now) (bins_of g))
        (lengths_of L.layout g (buffers_in L.layout (laid L.layout smallwork.old largework.old) palette.old counts.old
        remainders.old map.old)) }
    ensures answer { result ≡ boxes_of g (laid_view L.layout small.now large.now) k }
    ensures later { buffers_in L.layout (laid L.layout smallwork.new largework.new)
        palette.new counts.new remainders.new map.new
        ≡ later_on L.layout source g (laid_view L.layout small.now large.now) k
        (buffers_in L.layout (laid L.layout smallwork.old largework.old) palette.old
        counts.old remainders.old map.old) }
{
    ready::<L>(source, small, large, g, smallwork, largework);
    let b = cut_boxes::<L>(small, large, smallwork, largework, source, g, k);
    put_results::<L>(
        small, large, smallwork, largework, source, g, &b, palette, counts, remainders,
    );
    fill_boxes(g, &b, map);
    b
}

// What the record of a refused cut tells: no boxes, no rounds, and all zeros at every place.
pub fn no_boxes() -> Boxes
    ensures { result ≡ no_boxes }
{
    let none = BoxSpread {
        bounds: Bounds::default(),
        spread: 0.0,
    };
    Boxes {
        boxes: 0,
        rounds: 0,
        places: [none; 256],
    }
}

// Cuts a table into at most k boxes: their colours go into the palette, their weights into the counts, what the means
// leave of their sums into the remainders, and the index of the box of each bin into the map. Sums come from moments in
// the work table, or from the bins of the table.
pub fn cut<L: Layout>(
    source: Source,
    b1: usize,
    b2: usize,
    b3: usize,
    k: usize,
    small: &[u32],
    large: &[u64],
    smallwork: &mut [u32],
    largework: &mut [u64],
    palette: &mut [u8],
    counts: &mut [u32],
    remainders: &mut [u32],
    map: &mut [u8],
) -> Result<Boxes, Refusal>
    ensures answer { record_of result
        ≡ cut_record_in L.layout source b1 b2 b3 k (laid L.layout small.now large.now)
        (buffers_in L.layout (laid L.layout smallwork.old largework.old) palette.old
        counts.old remainders.old map.old) }
    ensures later { buffers_in L.layout (laid L.layout smallwork.new largework.new)
        palette.new counts.new remainders.new map.new
        ≡ cut_later_in L.layout source b1 b2 b3 k (laid L.layout small.now large.now)
        (buffers_in L.layout (laid L.layout smallwork.old largework.old) palette.old
        counts.old remainders.old map.old) }
{
    let g = grid_of(b1, b2, b3).ok_or(Refusal::Grid)?;
    let sized = L::fits(smallwork.len(), largework.len(), g);
    check::<L>(
        source,
        small,
        large,
        g,
        k,
        sized,
        palette.len(),
        counts.len(),
        remainders.len(),
        map.len(),
    )?;
    Ok(cut_on::<L>(
        source, small, large, g, k, smallwork, largework, palette, counts, remainders, map,
    ))
}
