// Tables: how long one is, loading, merging, comparing and rescuing.
ghost use Rattle.std.specs.Prelude.{◌≡◌};
ghost use Rattle.compare.specs.Compare.{compare_record, compare_later};
ghost use Rattle.loader.specs.Load.{load_number, load_later};
ghost use Rattle.loader.specs.Merge.{merge_number, merge_later};
ghost use Rattle.rescue.specs.Rescue.{rescue_number, rescue_table, rescue_reasons};
ghost use Rattle.seluvava.specs.Sizes.{table_len_for};

use basics::refusal::answer;
use compare::call::Compared;
use grid::place::grid_of;
use loader::load::load;
use loader::merge::merge;
use rescue::call::rescue;
use table::layout::Wide;
use table::wide::table_len;

// How many numbers a table has, or 0 where the grid is refused.
pub fn seluvava_table_len(b1: usize, b2: usize, b3: usize) -> usize
    ensures { result ≡ table_len_for b1 b2 b3 }
{
    match grid_of(b1, b2, b3) {
        Some(g) => table_len(g),
        None => 0,
    }
}

// Adds a batch of colours to a table.
pub fn seluvava_load(
    b1: usize,
    b2: usize,
    b3: usize,
    table: &mut [u64],
    colours: &[u8],
    weighted: bool,
    weights: &[u32],
) -> u8
    ensures number { result
        ≡ load_number b1 b2 b3 table.old colours.now weighted weights.now }
    ensures later { table.new
        ≡ load_later b1 b2 b3 table.old colours.now weighted weights.now }
{
    let mut none = [0u32; 0];
    let weights = if weighted { Some(weights) } else { None };
    answer(load::<Wide>(b1, b2, b3, &mut none, table, colours, weights))
}

// Adds a second table into a first.
pub fn seluvava_merge(b1: usize, b2: usize, b3: usize, table: &mut [u64], second: &[u64]) -> u8
    ensures number { result ≡ merge_number b1 b2 b3 table.old second.now }
    ensures later { table.new ≡ merge_later b1 b2 b3 table.old second.now }
{
    let mut none = [0u32; 0];
    answer(merge::<Wide>(b1, b2, b3, &mut none, table, &[], second))
}

// Compares a second table with a first.
pub fn seluvava_compare(
    b1: usize,
    b2: usize,
    b3: usize,
    first: &[u64],
    second: &[u64],
    differences: &mut [i64],
) -> Compared
    ensures record { result
        ≡ compare_record b1 b2 b3 first.now second.now differences.old }
    ensures later { differences.new
        ≡ compare_later b1 b2 b3 first.now second.now differences.old }
{
    compare::call::compare(b1, b2, b3, first, second, differences)
}

// Clears what keeps a table from being sound, and says why.
pub fn seluvava_rescue(b1: usize, b2: usize, b3: usize, table: &mut [u64], reasons: &mut [u8]) -> u8
    ensures number { result ≡ rescue_number b1 b2 b3 table.old reasons.old }
    ensures table { table.new ≡ rescue_table b1 b2 b3 table.old reasons.old }
    ensures reasons { reasons.new
        ≡ rescue_reasons b1 b2 b3 table.old reasons.old }
{
    answer(rescue(b1, b2, b3, table, reasons))
}
