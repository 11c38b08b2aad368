// The words of a script. In a row a word stands as the number that its bytes make, the first the highest, and a script
// may write that number in its place.

// The number that the bytes of a word make.
macro_rules! word {
    ($first:literal $($letter:literal)*) => {
        word!(@ ($first as u64); $($letter)*)
    };
    (@ $number:expr; $letter:literal $($letters:literal)*) => {
        word!(@ (256 * $number + $letter as u64); $($letters)*)
    };
    (@ $number:expr;) => {
        $number
    };
}

const CASE: u64 = word!(b'c' b'a' b's' b'e');

const LET: u64 = word!(b'l' b'e' b't');

const IS: u64 = word!(b'i' b's');

const SUMS: u64 = word!(b's' b'u' b'm' b's');

const LOAD: u64 = word!(b'l' b'o' b'a' b'd');

const MERGE: u64 = word!(b'm' b'e' b'r' b'g' b'e');

const CUT: u64 = word!(b'c' b'u' b't');

const FRONT: u64 = word!(b'f' b'r' b'o' b'n' b't');

const MAP: u64 = word!(b'm' b'a' b'p');

const PAINT: u64 = word!(b'p' b'a' b'i' b'n' b't');

const TABLE: u64 = word!(b't' b'a' b'b' b'l' b'e');

const SECOND: u64 = word!(b's' b'e' b'c' b'o' b'n' b'd');

const PALETTE: u64 = word!(b'p' b'a' b'l' b'e' b't' b't' b'e');

const FRAME: u64 = word!(b'f' b'r' b'a' b'm' b'e');

const INDICES: u64 = word!(b'i' b'n' b'd' b'i' b'c' b'e' b's');

const COUNTS: u64 = word!(b'c' b'o' b'u' b'n' b't' b's');

const LEFT: u64 = word!(b'l' b'e' b'f' b't');

const WEIGHTS: u64 = word!(b'w' b'e' b'i' b'g' b'h' b't' b's');

const RECORD: u64 = word!(b'r' b'e' b'c' b'o' b'r' b'd');

const CALLS: u64 = word!(b'c' b'a' b'l' b'l' b's');

// A kind of words.
pub(crate) trait Word: Sized {
    // The word that a number is, if it is one.
    fn of(number: u64) -> Option<Self>;
}

// The kinds of calls, in the order in which they are counted.
#[derive(Clone, Copy)]
pub(crate) enum Kind {
    Load,
    Merge,
    Cut,
    Front,
    Map,
    Paint,
}

// The words that begin a line.
#[derive(Clone, Copy)]
pub(crate) enum Verb {
    Case,
    Let,
    Is,
    Sums,
    Call(Kind),
}

impl Word for Verb {
    fn of(number: u64) -> Option<Verb> {
        match number {
            CASE => Some(Verb::Case),
            LET => Some(Verb::Let),
            IS => Some(Verb::Is),
            SUMS => Some(Verb::Sums),
            LOAD => Some(Verb::Call(Kind::Load)),
            MERGE => Some(Verb::Call(Kind::Merge)),
            CUT => Some(Verb::Call(Kind::Cut)),
            FRONT => Some(Verb::Call(Kind::Front)),
            MAP => Some(Verb::Call(Kind::Map)),
            PAINT => Some(Verb::Call(Kind::Paint)),
            _ => None,
        }
    }
}

// The lists that calls are lent and fill.
#[derive(Clone, Copy)]
pub(crate) enum Name {
    Table,
    Second,
    Map,
    Palette,
    Frame,
    Indices,
    Counts,
    Left,
    Weights,
    Record,
    Calls,
}

impl Word for Name {
    fn of(number: u64) -> Option<Name> {
        match number {
            TABLE => Some(Name::Table),
            SECOND => Some(Name::Second),
            MAP => Some(Name::Map),
            PALETTE => Some(Name::Palette),
            FRAME => Some(Name::Frame),
            INDICES => Some(Name::Indices),
            COUNTS => Some(Name::Counts),
            LEFT => Some(Name::Left),
            WEIGHTS => Some(Name::Weights),
            RECORD => Some(Name::Record),
            CALLS => Some(Name::Calls),
            _ => None,
        }
    }
}
