// A cut, with its record as a list, and the filled front of a palette.
use crate::lend::lent;
use crate::lists::{List, Lists, MAP, SHORT};
use crate::row::Row;
use cutter::call::{cut, no_boxes};
use cutter::palette::front;
use rounds::gather::{BoxSpread, Boxes};
use sums::source::Source;
use table::layout::Wide;

// The bits of a float, or those of a NaN.
fn bits(x: f64) -> u64 {
    if x.is_nan() {
        0x7ff8_0000_0000_0000
    } else {
        x.to_bits()
    }
}

// The seven numbers of a box and its spread.
fn numbers_of(x: &BoxSpread) -> [u64; 7] {
    let b = x.bounds;
    [
        u64::from(b.r0),
        u64::from(b.r1),
        u64::from(b.g0),
        u64::from(b.g1),
        u64::from(b.b0),
        u64::from(b.b1),
        bits(x.spread),
    ]
}

// Makes the record of a cut a list: how many boxes there are, how many rounds there were, and every place, those past
// the last box too.
fn put_record(record: &mut List, r: &Boxes) {
    record.truncate(0);
    record.extend(&[r.boxes as u64, r.rounds as u64]);
    for place in &r.places {
        record.extend(&numbers_of(place));
    }
}

// Cuts the table, with the second table as work table.
pub(crate) fn cut_table(row: &Row, lists: &mut Lists) -> u64 {
    let (b1, b2, b3) = row.bins();
    let mut palette = [0; SHORT];
    let mut counts = [0; SHORT];
    let mut left = [0; SHORT];
    let mut map = [0; MAP];
    let palette = lent(lists.palette.items(), &mut palette);
    let counts = lent(lists.counts.items(), &mut counts);
    let left = lent(lists.left.items(), &mut left);
    let map = lent(lists.map.items(), &mut map);
    let work = &mut lists.second;
    let n = work.len;
    let done = cut::<Wide>(
        Source::Moments,
        b1,
        b2,
        b3,
        row.size(6),
        &[],
        lists.table.items(),
        &mut [],
        &mut work.room[..n],
        palette,
        counts,
        left,
        map,
    );
    let (boxes, answer) = match done {
        Ok(boxes) => (boxes, 0),
        Err(refusal) => (no_boxes(), refusal.number()),
    };
    put_record(&mut lists.record, &boxes);
    lists.palette.keep(palette);
    lists.counts.keep(counts);
    lists.left.keep(left);
    lists.map.keep(map);
    u64::from(answer)
}

// Makes the palette its filled front, and answers how many bytes that has.
pub(crate) fn take_front(row: &Row, lists: &mut Lists) -> u64 {
    let mut palette = [0; SHORT];
    let palette = lent(lists.palette.items(), &mut palette);
    let filled = front(palette, row.size(3)).len();
    lists.palette.truncate(filled);
    filled as u64
}
