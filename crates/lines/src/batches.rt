// Loading: the input batch by batch, into one table.
ghost use Rattle.std.specs.Prelude.{◌≡◌};
ghost use Rattle.lines.specs.Listing.{lower_of, empty_table, batch_answer, batch_later, Filled};

use basics::refusal::answer;
use loader::load::load;
use table::layout::Wide;

// A table that nothing was loaded into.
pub fn empty_table() -> [u64; 2560]
    ensures { result ≡ empty_table }
{
    [0; 2560]
}

// The lower of two answers, where 0 is no refusal.
fn lower(number: u8, other: u8) -> u8
    ensures { result ≡ lower_of number other }
{
    if number == 0 {
        return other;
    }
    if other == 0 {
        return number;
    }
    if other < number { other } else { number }
}

// The lowest refusal that a load has given so far, 0 where there was none, and whether another batch may follow.
#[derive(Clone, Copy)]
pub struct Loaded {
    pub number: u8,
    pub more: bool,
}

// Loads the filled front of a batch, whose whole length says whether it is full. A refusal does not end the input: what
// follows may have a lower one. The lowest so far is a number, as callers may hand in any.
pub fn load_batch(table: &mut [u64], batch: &[u8], filled: usize, lowest: u8) -> Loaded
    requires { Filled batch.now filled }
    ensures answer { result ≡ batch_answer table.old batch.now filled lowest }
    ensures later { table.new ≡ batch_later table.old batch.now filled }
{
    let number = answer(load::<Wide>(8, 8, 8, &mut [], table, &batch[..filled], None));
    Loaded {
        number: lower(lowest, number),
        more: filled == batch.len(),
    }
}
