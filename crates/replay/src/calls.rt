// The calls. Each is lent the lists as they stand, is given the numbers of its line, and answers a number, which is
// held to the last of the line. A new call is a function here, a kind of `words`, and an arm in `answer` and `place_of`.
ghost use Rattle.std.specs.Prelude.{◌<◌};

use crate::cuts::{cut_table, take_front};
use crate::lend::lent;
use crate::lists::{Lists, MAP, SHORT};
use crate::row::Row;
use crate::tell::Difference;
use crate::words::Kind;
use basics::refusal::{self, Refusal};
use loader::load::load;
use loader::merge::merge;
use mapper::call::map;
use painter::call::paint;
use table::layout::Wide;

// What a call answers, as the number that a line has.
fn number(done: Result<(), Refusal>) -> u64 {
    u64::from(refusal::answer(done))
}

// The weights, where the line has a 1 for them.
fn weights_of<'a>(row: &Row, list: &[u64], room: &'a mut [u32]) -> Option<&'a [u32]> {
    if row.number(6) == 1 {
        return Some(lent(list, room));
    }
    None
}

// Loads the frame with the weights into the list that the line names.
fn load_frame(row: &Row, lists: &mut Lists) -> u64 {
    let (b1, b2, b3) = row.bins();
    let mut frame = [0; SHORT];
    let mut weights = [0; SHORT];
    let frame = lent(lists.frame.items(), &mut frame);
    let weights = weights_of(row, lists.weights.items(), &mut weights);
    let table = lists.named_mut(row.number(2));
    let n = table.len;
    number(load::<Wide>(b1, b2, b3, &mut [], &mut table.room[..n], frame, weights))
}

// Adds the second table to the list that the line names, which may be that table.
fn merge_second(row: &mut Row, lists: &mut Lists) -> u64 {
    let (b1, b2, b3) = row.bins();
    let name = row.number(2);
    let second = row.copy_behind(lists.second.items());
    let table = lists.named_mut(name);
    let n = table.len;
    number(merge::<Wide>(b1, b2, b3, &mut [], &mut table.room[..n], &[], second))
}

// Maps a band of the frame into the indices.
fn map_frame(row: &Row, lists: &mut Lists) -> u64 {
    let (b1, b2, b3) = row.bins();
    let mut by = [0; MAP];
    let mut frame = [0; SHORT];
    let mut indices = [0; SHORT];
    let by = lent(lists.map.items(), &mut by);
    let frame = lent(lists.frame.items(), &mut frame);
    let indices = lent(lists.indices.items(), &mut indices);
    let colours = row.size(6);
    let answer = map(
        b1,
        b2,
        b3,
        by,
        colours,
        frame,
        indices,
        row.size(7),
        row.size(8),
    );
    lists.indices.keep(indices);
    number(answer)
}

// Paints a band of the frame with the palette.
fn paint_frame(row: &Row, lists: &mut Lists) -> u64 {
    let (b1, b2, b3) = row.bins();
    let mut by = [0; MAP];
    let mut palette = [0; SHORT];
    let mut frame = [0; SHORT];
    let by = lent(lists.map.items(), &mut by);
    let palette = lent(lists.palette.items(), &mut palette);
    let frame = lent(lists.frame.items(), &mut frame);
    let answer = paint(b1, b2, b3, by, palette, frame, row.size(6), row.size(7));
    lists.frame.keep(frame);
    number(answer)
}

// Where the answer of a call stands in its line.
fn place_of(kind: Kind) -> usize
    ensures { result < 16 }
{
    match kind {
        Kind::Load => 7,
        Kind::Merge => 6,
        Kind::Cut => 7,
        Kind::Front => 4,
        Kind::Map => 9,
        Kind::Paint => 8,
    }
}

// Makes a call, and answers its number.
fn answer(kind: Kind, row: &mut Row, lists: &mut Lists) -> u64 {
    match kind {
        Kind::Load => load_frame(row, lists),
        Kind::Merge => merge_second(row, lists),
        Kind::Cut => cut_table(row, lists),
        Kind::Front => take_front(row, lists),
        Kind::Map => map_frame(row, lists),
        Kind::Paint => paint_frame(row, lists),
    }
}

// Makes the call of a line, counts it, and holds its number.
pub(crate) fn make(kind: Kind, row: &mut Row, lists: &mut Lists) -> Result<(), Difference> {
    let answer = answer(kind, row, lists);
    lists.calls.count(kind as usize);
    row.agree(place_of(kind), answer, &[])
}
