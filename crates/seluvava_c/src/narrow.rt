// Tables in the narrow layout: loading, merging, cutting, and the wide table of one.
ghost use Rattle.std.specs.Prelude.{◌≡◌};
ghost use Rattle.table.specs.Layouts.{Narrow};
ghost use Rattle.table.specs.Narrow.{narrow_table};
ghost use Rattle.loader.specs.Load.{load_number_in, load_later_in};
ghost use Rattle.loader.specs.Merge.{merge_number_in, merge_later_in};
ghost use Rattle.widen.specs.Widen.{widen_number, widen_later};
ghost use Rattle.sums.specs.declared.source.Source.TheVariants.{Moments, Bins};
ghost use Rattle.cutter.specs.Cut.{buffers_in, no_work_in};
ghost use Rattle.seluvava.specs.Cut.{lent_in, cut_answer_in, call_later_in};

use seluvava::cut::CutAnswer;

// Adds a batch of colours to a narrow table.
#[unsafe(no_mangle)]
pub extern "C" fn seluvava_narrow_load(
    b1: usize,
    b2: usize,
    b3: usize,
    sums: &mut [u32],
    squares: &mut [u64],
    colours: &[u8],
    weighted: bool,
    weights: &[u32],
) -> u8
    ensures number { result
        ≡ load_number_in Narrow b1 b2 b3 (narrow_table sums.old squares.old) colours.now
        weighted weights.now }
    ensures later { narrow_table sums.new squares.new
        ≡ load_later_in Narrow b1 b2 b3 (narrow_table sums.old squares.old) colours.now
        weighted weights.now }
{
    seluvava::narrow::seluvava_narrow_load(b1, b2, b3, sums, squares, colours, weighted, weights)
}

// Adds a second narrow table into a first.
#[unsafe(no_mangle)]
pub extern "C" fn seluvava_narrow_merge(
    b1: usize,
    b2: usize,
    b3: usize,
    sums: &mut [u32],
    squares: &mut [u64],
    secondsums: &[u32],
    secondsquares: &[u64],
) -> u8
    ensures number { result
        ≡ merge_number_in Narrow b1 b2 b3 (narrow_table sums.old squares.old)
        (narrow_table secondsums.now secondsquares.now) }
    ensures later { narrow_table sums.new squares.new
        ≡ merge_later_in Narrow b1 b2 b3 (narrow_table sums.old squares.old)
        (narrow_table secondsums.now secondsquares.now) }
{
    seluvava::narrow::seluvava_narrow_merge(b1, b2, b3, sums, squares, secondsums, secondsquares)
}

// Cuts a narrow table into at most k boxes; all but the tables is as for a wide one.
#[unsafe(no_mangle)]
pub extern "C" fn seluvava_narrow_cut(
    b1: usize,
    b2: usize,
    b3: usize,
    k: usize,
    sums: &[u32],
    squares: &[u64],
    worksums: &mut [u32],
    worksquares: &mut [u64],
    palette: &mut [u8],
    counts: &mut [u32],
    remainders: &mut [u32],
    map: &mut [u8],
    boxes: &mut [u8],
    spreads: &mut [f64],
) -> CutAnswer
    ensures answer { result
        ≡ cut_answer_in Narrow Moments b1 b2 b3 k (narrow_table sums.now squares.now)
        (lent_in Narrow
        (buffers_in Narrow (narrow_table worksums.old worksquares.old) palette.old
        counts.old remainders.old map.old)
        boxes.old spreads.old) }
    ensures later { lent_in Narrow
        (buffers_in Narrow (narrow_table worksums.new worksquares.new) palette.new
        counts.new remainders.new map.new)
        boxes.new spreads.new
        ≡ call_later_in Narrow Moments b1 b2 b3 k (narrow_table sums.now squares.now)
        (lent_in Narrow
        (buffers_in Narrow (narrow_table worksums.old worksquares.old) palette.old
        counts.old remainders.old map.old)
        boxes.old spreads.old) }
{
    seluvava::narrow::seluvava_narrow_cut(
        b1,
        b2,
        b3,
        k,
        sums,
        squares,
        worksums,
        worksquares,
        palette,
        counts,
        remainders,
        map,
        boxes,
        spreads,
    )
}

// The same without a work table.
#[unsafe(no_mangle)]
pub extern "C" fn seluvava_narrow_cut_slowly(
    b1: usize,
    b2: usize,
    b3: usize,
    k: usize,
    sums: &[u32],
    squares: &[u64],
    palette: &mut [u8],
    counts: &mut [u32],
    remainders: &mut [u32],
    map: &mut [u8],
    boxes: &mut [u8],
    spreads: &mut [f64],
) -> CutAnswer
    ensures answer { result
        ≡ cut_answer_in Narrow Bins b1 b2 b3 k (narrow_table sums.now squares.now)
        (lent_in Narrow
        (buffers_in Narrow (no_work_in Narrow) palette.old counts.old
        remainders.old map.old)
        boxes.old spreads.old) }
    ensures later { lent_in Narrow
        (buffers_in Narrow (no_work_in Narrow) palette.new counts.new
        remainders.new map.new)
        boxes.new spreads.new
        ≡ call_later_in Narrow Bins b1 b2 b3 k (narrow_table sums.now squares.now)
        (lent_in Narrow
        (buffers_in Narrow (no_work_in Narrow) palette.old counts.old
        remainders.old map.old)
        boxes.old spreads.old) }
{
    seluvava::narrow::seluvava_narrow_cut_slowly(
        b1, b2, b3, k, sums, squares, palette, counts, remainders, map, boxes, spreads,
    )
}

// Writes the wide table of a narrow one.
#[unsafe(no_mangle)]
pub extern "C" fn seluvava_widen(
    b1: usize,
    b2: usize,
    b3: usize,
    sums: &[u32],
    squares: &[u64],
    table: &mut [u64],
) -> u8
    ensures number { result
        ≡ widen_number b1 b2 b3 (narrow_table sums.now squares.now) table.old }
    ensures later { table.new
        ≡ widen_later b1 b2 b3 (narrow_table sums.now squares.now) table.old }
{
    seluvava::narrow::seluvava_widen(b1, b2, b3, sums, squares, table)
}
