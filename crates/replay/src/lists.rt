// The lists that calls are lent and fill, by name. All are of 64-bit numbers, so that each is set, held and summed alike.
ghost use Rattle.std.specs.Prelude.{◌≡◌, ◌≤◌, length, take};
ghost use Rattle.replay.specs.declared.lists.TheConstants.{TABLE};

use crate::row::Row;
use crate::tell::Difference;
use crate::words::{Name, Word};

// As many bins as a grid may have here.
pub(crate) const BINS: usize = 32768;

// How many numbers there is room for: in a table, in a map, and in a list that is neither of them nor `calls`.
pub(crate) const TABLE: usize = 5 * BINS + 1;

pub(crate) const MAP: usize = BINS + 1;

pub(crate) const SHORT: usize = 4095;

// A list, at the front of the room that it was given. A call that changes a list is lent `room[..len]`.
#[derive(Drop)]
pub(crate) struct List<'a> {
    pub(crate) room: &'a mut [u64],
    pub(crate) len: usize,
    ghost within: { len ≤ length room.now },
    ghost most: { length room.now ≤ TABLE },
}

impl<'a> List<'a> {
    // A list of no numbers.
    pub(crate) fn new(room: &'a mut [u64]) -> List<'a>
        requires { length room.old ≤ TABLE }
    {
        List { room, len: 0 }
    }

    // How many numbers there is room for.
    fn room(&self) -> usize
        ensures { result ≤ TABLE }
    {
        self.room.len()
    }

    pub(crate) fn items(&self) -> &[u64]
        ensures items { result.now ≡ take self.now.len self.now.room.now }
        ensures most { length result.now ≤ TABLE }
    {
        &self.room[..self.len]
    }

    // Leaves out all numbers past so many.
    pub(crate) fn truncate(&mut self, n: usize) {
        self.len = self.len.min(n);
    }

    // Puts back what a call left in the copy that it was lent.
    pub(crate) fn keep<T: Copy>(&mut self, copy: &[T])
    where
        u64: From<T>,
    {
        let n = copy.len().min(self.len);
        for i in 0..n {
            self.room[i] = u64::from(copy[i]);
        }
    }

    // Adds 1 to a number, modulo 2^64, if there is one.
    pub(crate) fn count(&mut self, place: usize) {
        if place < self.len {
            self.room[place] = self.room[place].wrapping_add(1);
        }
    }

    // Puts numbers behind the others, as many as there is room for.
    pub(crate) fn extend(&mut self, numbers: &[u64]) {
        let start = self.len;
        let n = numbers.len().min(self.room.len() - start);
        self.room[start..start + n].copy_from_slice(&numbers[..n]);
        self.len = start + n;
    }
}

#[derive(Drop)]
pub(crate) struct Lists<'a> {
    pub(crate) table: List<'a>,
    pub(crate) second: List<'a>,
    pub(crate) map: List<'a>,
    pub(crate) palette: List<'a>,
    pub(crate) frame: List<'a>,
    pub(crate) indices: List<'a>,
    pub(crate) counts: List<'a>,
    pub(crate) left: List<'a>,
    pub(crate) weights: List<'a>,
    pub(crate) record: List<'a>,
    pub(crate) calls: List<'a>,
    pub(crate) none: List<'a>,
}

impl<'a> Lists<'a> {
    fn list(&self, name: Name) -> &List<'a> {
        match name {
            Name::Table => &self.table,
            Name::Second => &self.second,
            Name::Map => &self.map,
            Name::Palette => &self.palette,
            Name::Frame => &self.frame,
            Name::Indices => &self.indices,
            Name::Counts => &self.counts,
            Name::Left => &self.left,
            Name::Weights => &self.weights,
            Name::Record => &self.record,
            Name::Calls => &self.calls,
        }
    }

    // The same, to be changed.
    fn list_mut(&mut self, name: Name) -> &mut List<'a> {
        match name {
            Name::Table => &mut self.table,
            Name::Second => &mut self.second,
            Name::Map => &mut self.map,
            Name::Palette => &mut self.palette,
            Name::Frame => &mut self.frame,
            Name::Indices => &mut self.indices,
            Name::Counts => &mut self.counts,
            Name::Left => &mut self.left,
            Name::Weights => &mut self.weights,
            Name::Record => &mut self.record,
            Name::Calls => &mut self.calls,
        }
    }

    // The list of a name, as the number that stands in a row. A name that no list has is one of no numbers.
    fn named(&self, name: u64) -> &List<'a> {
        match Name::of(name) {
            Some(name) => self.list(name),
            None => &self.none,
        }
    }

    // The same, to be changed.
    pub(crate) fn named_mut(&mut self, name: u64) -> &mut List<'a> {
        match Name::of(name) {
            Some(name) => self.list_mut(name),
            None => &mut self.none,
        }
    }

    // Sets a list to the one that the line has.
    pub(crate) fn set(&mut self, row: &Row) -> Result<(), Difference> {
        let list = self.named_mut(row.number(2));
        let n = row.size(3).min(list.room());
        list.truncate(0);
        list.extend(row.numbers(4, n));
        self.hold(row)
    }

    // Holds a list to the one that the line has.
    pub(crate) fn hold(&self, row: &Row) -> Result<(), Difference> {
        let list = self.named(row.number(2)).items();
        row.agree(3, list.len() as u64, list)
    }

    // Holds the length of a list, the sum of its numbers, and the sum of the sums up to each of them, both modulo 2^64,
    // to those of the line.
    pub(crate) fn hold_sums(&self, row: &Row) -> Result<(), Difference> {
        let list = self.named(row.number(2)).items();
        let mut sum = 0u64;
        let mut sums = 0u64;
        for n in list {
            sum = sum.wrapping_add(*n);
            sums = sums.wrapping_add(sum);
        }
        row.agree(3, list.len() as u64, &[sum, sums])
    }
}
