// A line of the script as a row of numbers: how many there are with this one, and then a number for each word and number
// that counts. A word is the number that its bytes make, the first the highest.
ghost use Rattle.std.specs.Prelude.{◌≡◌, ℕ, ◌+◌, ◌<◌, ◌≤◌, length, MatchOption, OnOk, slice_index};
ghost use Rattle.replay.specs.Lists.{FirstDifference};
ghost use Rattle.replay.specs.declared.row.TheConstants.{ROOM};

use crate::lists::TABLE;
use crate::tell::Difference;

// As many numbers as a row has room for: a line with the longest table, and some more.
pub(crate) const ROOM: usize = TABLE + 16;

// A number with a digit more, or a word with a letter more. What is too large counts as the largest number.
fn grown(n: u64, b: u8) -> u64 {
    if b.is_ascii_digit() {
        return n.saturating_mul(10).saturating_add(u64::from(b - b'0'));
    }
    if n > u64::MAX / 256 {
        return u64::MAX;
    }
    256 * n + u64::from(b)
}

// The first place at which two lists of one length differ. Inlined it takes two fifths more instructions.
#[inline(never)]
fn first_difference(a: &[u64], b: &[u64]) -> Option<usize>
    requires { length a.now ≡ length b.now }
    ensures { MatchOption result
        (FirstDifference a.now 0 b.now 0 (length a.now) (length a.now))
        (λ place. place < length a.now × FirstDifference a.now 0 b.now 0 (length a.now) place) }
{
    for i in 0..a.len() {
        if a[i] != b[i] {
            return Some(i);
        }
    }
    None
}

// The room is used for each line anew, and how long the row is stands beside it: a line that is too short is read on
// into what longer ones left there (docs/REPLAY.md, How it is read).
#[derive(Drop)]
pub(crate) struct Row<'a> {
    len: usize,
    numbers: &'a mut [u64],
    ghost some: { 1 ≤ len },
    ghost within: { len ≤ ROOM },
    ghost room: { length numbers.now ≡ ROOM },
}

impl<'a> Row<'a> {
    pub(crate) fn new(numbers: &'a mut [u64]) -> Row<'a>
        requires { length numbers.old ≡ ROOM }
    {
        Row { len: 1, numbers }
    }

    // Puts a word or a number, with its first byte, behind the others. From the third on only numbers count.
    fn put(&mut self, first: u8, number: u64) {
        if self.len < ROOM && (self.len < 3 || first.is_ascii_digit()) {
            self.numbers[self.len] = number;
            self.len += 1;
        }
    }

    // Repeats the last number, so that it stands there so many times. No line has a number that stands there no times.
    fn repeat(&mut self, times: u64) {
        if times == 0 {
            self.len = ROOM;
            return;
        }
        let start = self.len;
        let end = (start - 1).saturating_add(times as usize).min(ROOM);
        let last = self.numbers[start - 1];
        self.numbers[start..end].fill(last);
        self.len = end;
    }

    // Takes what stands between two separators, of which the first is a star or none.
    fn take(&mut self, first: u8, number: u64, star: bool) {
        if star {
            self.repeat(number);
        } else {
            self.put(first, number);
        }
    }

    // Takes the words and numbers of the line at a place of a text, and answers the place after its end. A blank, a star
    // and the end of a line separate.
    fn take_line(&mut self, text: &[u8], at: usize) -> usize
        requires { at < length text.now }
        ensures { (at < result) × (result ≤ length text.now) }
    {
        let mut start = at;
        let mut number = 0;
        let mut star = false;
        for i in at..text.len() {
            let b = text[i];
            if b > b'*' {
                number = grown(number, b);
                continue;
            }
            if start < i {
                self.take(text[start], number, star);
            }
            start = i + 1;
            if b == b'\n' {
                return start;
            }
            number = 0;
            star = b == b'*';
        }
        if start < text.len() {
            self.take(text[start], number, star);
        }
        text.len()
    }

    // Makes the line at a place of a text the row, and answers the place after its end.
    pub(crate) fn read(&mut self, text: &[u8], at: usize) -> usize
        requires { at < length text.now }
        ensures { (at < result) × (result ≤ length text.now) }
    {
        self.len = 1;
        let end = self.take_line(text, at);
        self.numbers[0] = self.len as u64;
        end
    }

    pub(crate) fn number(&self, place: usize) -> u64
        requires { place < ROOM }
        ensures { result ≡ slice_index self.now.numbers.now place }
    {
        self.numbers[place]
    }

    pub(crate) fn size(&self, place: usize) -> usize
        requires { place < ROOM }
    {
        self.number(place) as usize
    }

    // The sizes of a call's grid.
    pub(crate) fn bins(&self) -> (usize, usize, usize) {
        (self.size(3), self.size(4), self.size(5))
    }

    // So many numbers from a place on.
    pub(crate) fn numbers(&self, place: usize, n: usize) -> &[u64]
        requires { place + n ≤ ROOM }
        ensures long { length result.now ≡ n }
        ensures numbers { (i : ℕ) → i < n → slice_index result.now i ≡ slice_index self.now.numbers.now (place + i) }
    {
        &self.numbers[place..place + n]
    }

    // A copy of a list behind the first 16 numbers, which no call's line fills.
    pub(crate) fn copy_behind(&mut self, list: &[u64]) -> &[u64]
        requires { length list.now ≤ TABLE }
        ensures { result.now ≡ list.now }
    {
        let end = 16 + list.len();
        self.numbers[16..end].copy_from_slice(list);
        &self.numbers[16..end]
    }

    // Holds a number and those that follow it to the last of the row, from a place on.
    pub(crate) fn agree(&self, place: usize, first: u64, others: &[u64]) -> Result<(), Difference>
        requires { place < ROOM }
        ensures long { OnOk result (place + 1 + length others.now ≡ self.now.len) }
        ensures first { OnOk result (slice_index self.now.numbers.now place ≡ first) }
        ensures others { OnOk result (FirstDifference others.now 0 self.now.numbers.now (place + 1)
            (length others.now) (length others.now)) }
    {
        let end = others.len().saturating_add(place + 1);
        if end != self.len {
            return Err(Difference {
                place: 0,
                came: end as u64,
                due: self.len as u64,
            });
        }
        let due = self.number(place);
        if first != due {
            return Err(Difference {
                place: 1,
                came: first,
                due,
            });
        }
        let dues = self.numbers(place + 1, others.len());
        match first_difference(others, dues) {
            None => Ok(()),
            Some(i) => Err(Difference {
                place: 2 + i,
                came: others[i],
                due: dues[i],
            }),
        }
    }
}
