// Replays a script of calls, good and refused, and holds what each answers and leaves to the script on standard input.
// docs/REPLAY.md says what its lines mean and where they come from.
#![tactic(auto)]

mod calls;
mod cuts;
mod lend;
mod lists;
mod row;
mod tell;
mod words;

ghost use Rattle.std.specs.Prelude.{◌≤◌, length};

use crate::lists::{List, Lists, MAP, SHORT, TABLE};
use crate::row::{ROOM, Row};
use crate::tell::{Difference, Ending};
use crate::words::{Verb, Word};
use std::io::Read;

// As much of a script as is read, in bytes.
const TEXT: usize = 1048576;

// Does what a line of a verb says, and holds what came to it.
fn step(verb: Option<Verb>, row: &mut Row, lists: &mut Lists) -> Result<(), Difference> {
    match verb {
        Some(Verb::Case) => Ok(()),
        Some(Verb::Let) => lists.set(row),
        Some(Verb::Is) => lists.hold(row),
        Some(Verb::Sums) => lists.hold_sums(row),
        Some(Verb::Call(kind)) => calls::make(kind, row, lists),
        // No call has another word, and 0 is no row's length.
        None => row.agree(0, 0, &[]),
    }
}

// Replays a script up to its end, or to the first line that does not agree. Its last line has an end, as the others do.
fn replay(text: &[u8], row: &mut Row, lists: &mut Lists) -> Ending {
    let mut at = 0;
    let mut lines = 0;
    while at < text.len() {
        at = row.read(text, at);
        lines += 1;
        let verb = Verb::of(row.number(1));
        // Nothing is to be done for a case. It is passed over here, where that takes least.
        if matches!(verb, Some(Verb::Case)) {
            continue;
        }
        if let Err(difference) = step(verb, row, lists) {
            return Ending::Differs(difference, lines);
        }
    }
    if text.is_empty() || text.ends_with(b"\n") {
        Ending::Agreed(lines)
    } else {
        Ending::Unfinished(lines)
    }
}

// Reads until there is no more room, the input ends or a read fails, and answers how many bytes there are.
fn read_text(rt: &HostRuntime, text: &mut [u8]) -> usize
    ensures { result ≤ length text.new }
{
    let mut end = 0;
    while end < text.len() {
        match rt.stdin().read(&mut text[end..]) {
            Ok(0) | Err(_) => break,
            Ok(more) => end += more,
        }
    }
    end
}

fn read_and_replay(rt: &HostRuntime, text: &mut [u8; TEXT], row: &mut Row, lists: &mut Lists) {
    let end = read_text(rt, text);
    replay(&text[..end], row, lists).tell(rt);
}

// Room for a script, for a row, and for each list.
fn main(rt: HostRuntime) {
    let mut text = [0; TEXT];
    let mut numbers = [0; ROOM];
    let mut table = [0; TABLE];
    let mut second = [0; TABLE];
    let mut map = [0; MAP];
    let mut palette = [0; SHORT];
    let mut frame = [0; SHORT];
    let mut indices = [0; SHORT];
    let mut counts = [0; SHORT];
    let mut left = [0; SHORT];
    let mut weights = [0; SHORT];
    let mut record = [0; SHORT];
    let mut calls = [0; 15];
    let mut lists = Lists {
        table: List::new(&mut table),
        second: List::new(&mut second),
        map: List::new(&mut map),
        palette: List::new(&mut palette),
        frame: List::new(&mut frame),
        indices: List::new(&mut indices),
        counts: List::new(&mut counts),
        left: List::new(&mut left),
        weights: List::new(&mut weights),
        record: List::new(&mut record),
        calls: List::new(&mut calls),
        none: List::new(&mut []),
    };
    let mut row = Row::new(&mut numbers);
    read_and_replay(&rt, &mut text, &mut row, &mut lists);
}
