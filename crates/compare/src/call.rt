// Comparing: for each bin of two tables the five differences, and which bins differ.
ghost use Rattle.std.specs.Prelude.{◌≡◌};
ghost use Rattle.compare.specs.Compare.{compare_record, compare_later};
ghost use Rattle.compare.specs.Inner.{told};

use crate::bins::compare_bins;
use basics::refusal::Refusal;
use grid::place::grid_of;
use table::layout::Wide;
use table::sound::sound_total;
use table::wide::table_len;

// What a comparison hands back: its answer, how many bins differ, and the place of the first that does. The C interface
// has this record, so the answer is a number in it.
#[repr(C)]
#[derive(Clone, Copy)]
pub struct Compared {
    pub number: u8,
    pub differ: usize,
    pub first: usize,
}

// Compares a second table with a first, or tells why not.
fn compare_tables(
    b1: usize,
    b2: usize,
    b3: usize,
    first: &[u64],
    second: &[u64],
    differences: &mut [i64],
) -> Result<Compared, Refusal>
    ensures record { told result
        ≡ compare_record b1 b2 b3 first.now second.now differences.old }
    ensures later { differences.new
        ≡ compare_later b1 b2 b3 first.now second.now differences.old }
{
    let g = grid_of(b1, b2, b3).ok_or(Refusal::Grid)?;
    let numbers = table_len(g);
    if first.len() != numbers || second.len() != numbers || differences.len() != numbers {
        return Err(Refusal::Length);
    }
    sound_total::<Wide>(&[], first, g).ok_or(Refusal::Unsound)?;
    sound_total::<Wide>(&[], second, g).ok_or(Refusal::Unsound)?;
    Ok(compare_bins(g, first, second, differences))
}

// Compares a second table with a first. A refusal hands back its number and two zeros.
pub fn compare(
    b1: usize,
    b2: usize,
    b3: usize,
    first: &[u64],
    second: &[u64],
    differences: &mut [i64],
) -> Compared
    ensures record { result
        ≡ compare_record b1 b2 b3 first.now second.now differences.old }
    ensures later { differences.new
        ≡ compare_later b1 b2 b3 first.now second.now differences.old }
{
    match compare_tables(b1, b2, b3, first, second, differences) {
        Ok(compared) => compared,
        Err(refusal) => Compared {
            number: refusal.number(),
            differ: 0,
            first: 0,
        },
    }
}
