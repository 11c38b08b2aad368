// Cutting a table, with its boxes and spreads written into lent arrays.
ghost use Rattle.std.specs.Prelude.{◌≡◌};
ghost use Rattle.basics.specs.Refusal.{number_of};
ghost use Rattle.sums.specs.declared.source.Source.TheVariants.{Moments, Bins};
ghost use Rattle.table.specs.Layout.{laid};
ghost use Rattle.cutter.specs.Cut.{buffers_in, buffers, no_work};
ghost use Rattle.seluvava.specs.Cut.{lent_in, cut_answer_in, call_later_in, lent, cut_answer, call_later};

use crate::arrays::{check_room, put_boxes};
use basics::refusal::Refusal;
use cutter::call::cut;
use sums::source::Source;
use table::layout::{Layout, Wide};

// What a cut answers; the boxes themselves go into lent arrays.
#[repr(C)]
#[derive(Clone, Copy)]
pub struct CutAnswer {
    pub number: u8,
    pub boxes: usize,
    pub rounds: usize,
}

// What a refused cut answers.
fn refused(refusal: Refusal) -> CutAnswer
    ensures { result ≡ record { number = number_of refusal; boxes = 0; rounds = 0 } }
{
    CutAnswer {
        number: refusal.number(),
        boxes: 0,
        rounds: 0,
    }
}

// A cut in either layout with sums from where they come from, and its boxes and spreads written.
pub(crate) fn cut_and_write<L: Layout>(
    source: Source,
    b1: usize,
    b2: usize,
    b3: usize,
    k: usize,
    small: &[u32],
    large: &[u64],
    smallwork: &mut [u32],
    largework: &mut [u64],
    palette: &mut [u8],
    counts: &mut [u32],
    remainders: &mut [u32],
    map: &mut [u8],
    boxes: &mut [u8],
    spreads: &mut [f64],
) -> CutAnswer
    ensures answer { result
        ≡ cut_answer_in L.layout source b1 b2 b3 k (laid L.layout small.now large.now)
        (lent_in L.layout
        (buffers_in L.layout (laid L.layout smallwork.old largework.old) palette.old
        counts.old remainders.old map.old)
        boxes.old spreads.old) }
    ensures later { lent_in L.layout
        (buffers_in L.layout (laid L.layout smallwork.new largework.new) palette.new
        counts.new remainders.new map.new)
        boxes.new spreads.new
        ≡ call_later_in L.layout source b1 b2 b3 k (laid L.layout small.now large.now)
        (lent_in L.layout
        (buffers_in L.layout (laid L.layout smallwork.old largework.old) palette.old
        counts.old remainders.old map.old)
        boxes.old spreads.old) }
{
    if let Err(refusal) = check_room(b1, b2, b3, k, boxes.len(), spreads.len()) {
        return refused(refusal);
    }
    let result = cut::<L>(
        source, b1, b2, b3, k, small, large, smallwork, largework, palette, counts, remainders, map,
    );
    match result {
        Ok(b) => {
            put_boxes(&b, boxes, spreads);
            CutAnswer {
                number: 0,
                boxes: b.boxes,
                rounds: b.rounds,
            }
        }
        Err(refusal) => refused(refusal),
    }
}

// Cuts a table into at most k boxes: their colours go into the palette, their weights into the counts, what the means
// leave of their sums into the remainders, the index of the box of each bin into the map, and the boxes with their
// spreads into arrays of their own.
pub fn seluvava_cut(
    b1: usize,
    b2: usize,
    b3: usize,
    k: usize,
    table: &[u64],
    work: &mut [u64],
    palette: &mut [u8],
    counts: &mut [u32],
    remainders: &mut [u32],
    map: &mut [u8],
    boxes: &mut [u8],
    spreads: &mut [f64],
) -> CutAnswer
    ensures answer { result
        ≡ cut_answer Moments b1 b2 b3 k table.now
        (lent (buffers work.old palette.old counts.old remainders.old
        map.old)
        boxes.old spreads.old) }
    ensures later { lent (buffers work.new palette.new counts.new remainders.new
        map.new)
        boxes.new spreads.new
        ≡ call_later Moments b1 b2 b3 k table.now
        (lent (buffers work.old palette.old counts.old remainders.old
        map.old)
        boxes.old spreads.old) }
{
    let none = [0u32; 0];
    let mut nowork = [0u32; 0];
    cut_and_write::<Wide>(
        Source::Moments,
        b1,
        b2,
        b3,
        k,
        &none,
        table,
        &mut nowork,
        work,
        palette,
        counts,
        remainders,
        map,
        boxes,
        spreads,
    )
}

// The same without a work table: the bins of a box are added up each time that its sums are needed.
pub fn seluvava_cut_slowly(
    b1: usize,
    b2: usize,
    b3: usize,
    k: usize,
    table: &[u64],
    palette: &mut [u8],
    counts: &mut [u32],
    remainders: &mut [u32],
    map: &mut [u8],
    boxes: &mut [u8],
    spreads: &mut [f64],
) -> CutAnswer
    ensures answer { result
        ≡ cut_answer Bins b1 b2 b3 k table.now
        (lent (buffers no_work palette.old counts.old remainders.old
        map.old)
        boxes.old spreads.old) }
    ensures later { lent (buffers no_work palette.new counts.new remainders.new
        map.new)
        boxes.new spreads.new
        ≡ call_later Bins b1 b2 b3 k table.now
        (lent (buffers no_work palette.old counts.old remainders.old
        map.old)
        boxes.old spreads.old) }
{
    let none = [0u32; 0];
    let mut smallwork = [0u32; 0];
    let mut largework = [0u64; 0];
    cut_and_write::<Wide>(
        Source::Bins,
        b1,
        b2,
        b3,
        k,
        &none,
        table,
        &mut smallwork,
        &mut largework,
        palette,
        counts,
        remainders,
        map,
        boxes,
        spreads,
    )
}
