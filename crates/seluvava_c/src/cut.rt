// Cutting a table, with its boxes and spreads written into lent arrays.
ghost use Rattle.std.specs.Prelude.{◌≡◌};
ghost use Rattle.sums.specs.declared.source.Source.TheVariants.{Moments, Bins};
ghost use Rattle.cutter.specs.Cut.{buffers, no_work};
ghost use Rattle.seluvava.specs.Cut.{lent, cut_answer, call_later};

use seluvava::cut::CutAnswer;

// Cuts a table into at most k boxes: their colours go into the palette, their weights into the counts, what the means
// leave of their sums into the remainders, the index of the box of each bin into the map, and the boxes with their
// spreads into arrays of their own.
#[unsafe(no_mangle)]
pub extern "C" fn seluvava_cut(
    b1: usize,
    b2: usize,
    b3: usize,
    k: usize,
    table: &[u64],
    work: &mut [u64],
    palette: &mut [u8],
    counts: &mut [u32],
    remainders: &mut [u32],
    map: &mut [u8],
    boxes: &mut [u8],
    spreads: &mut [f64],
) -> CutAnswer
    ensures answer { result
        ≡ cut_answer Moments b1 b2 b3 k table.now
        (lent (buffers work.old palette.old counts.old remainders.old
        map.old)
        boxes.old spreads.old) }
    ensures later { lent (buffers work.new palette.new counts.new remainders.new
        map.new)
        boxes.new spreads.new
        ≡ call_later Moments b1 b2 b3 k table.now
        (lent (buffers work.old palette.old counts.old remainders.old
        map.old)
        boxes.old spreads.old) }
{
    seluvava::cut::seluvava_cut(
        b1, b2, b3, k, table, work, palette, counts, remainders, map, boxes, spreads,
    )
}

// The same without a work table: the bins of a box are added up each time that its sums are needed.
#[unsafe(no_mangle)]
pub extern "C" fn seluvava_cut_slowly(
    b1: usize,
    b2: usize,
    b3: usize,
    k: usize,
    table: &[u64],
    palette: &mut [u8],
    counts: &mut [u32],
    remainders: &mut [u32],
    map: &mut [u8],
    boxes: &mut [u8],
    spreads: &mut [f64],
) -> CutAnswer
    ensures answer { result
        ≡ cut_answer Bins b1 b2 b3 k table.now
        (lent (buffers no_work palette.old counts.old remainders.old
        map.old)
        boxes.old spreads.old) }
    ensures later { lent (buffers no_work palette.new counts.new remainders.new
        map.new)
        boxes.new spreads.new
        ≡ call_later Bins b1 b2 b3 k table.now
        (lent (buffers no_work palette.old counts.old remainders.old
        map.old)
        boxes.old spreads.old) }
{
    seluvava::cut::seluvava_cut_slowly(
        b1, b2, b3, k, table, palette, counts, remainders, map, boxes, spreads,
    )
}
