// Tables: how long one is, loading, merging, comparing and rescuing.
ghost use Rattle.std.specs.Prelude.{◌≡◌};
ghost use Rattle.compare.specs.Compare.{compare_record, compare_later};
ghost use Rattle.loader.specs.Load.{load_number, load_later};
ghost use Rattle.loader.specs.Merge.{merge_number, merge_later};
ghost use Rattle.rescue.specs.Rescue.{rescue_number, rescue_table, rescue_reasons};
ghost use Rattle.seluvava.specs.Sizes.{table_len_for};

use compare::call::Compared;

// How many numbers a table has, or 0 where the grid is refused.
#[unsafe(no_mangle)]
pub extern "C" fn seluvava_table_len(b1: usize, b2: usize, b3: usize) -> usize
    ensures { result ≡ table_len_for b1 b2 b3 }
{
    seluvava::tables::seluvava_table_len(b1, b2, b3)
}

// Adds a batch of colours to a table.
#[unsafe(no_mangle)]
pub extern "C" fn seluvava_load(
    b1: usize,
    b2: usize,
    b3: usize,
    table: &mut [u64],
    colours: &[u8],
    weighted: bool,
    weights: &[u32],
) -> u8
    ensures number { result
        ≡ load_number b1 b2 b3 table.old colours.now weighted weights.now }
    ensures later { table.new
        ≡ load_later b1 b2 b3 table.old colours.now weighted weights.now }
{
    seluvava::tables::seluvava_load(b1, b2, b3, table, colours, weighted, weights)
}

// Adds a second table into a first.
#[unsafe(no_mangle)]
pub extern "C" fn seluvava_merge(
    b1: usize,
    b2: usize,
    b3: usize,
    table: &mut [u64],
    second: &[u64],
) -> u8
    ensures number { result ≡ merge_number b1 b2 b3 table.old second.now }
    ensures later { table.new ≡ merge_later b1 b2 b3 table.old second.now }
{
    seluvava::tables::seluvava_merge(b1, b2, b3, table, second)
}

// Compares a second table with a first.
#[unsafe(no_mangle)]
pub extern "C" fn seluvava_compare(
    b1: usize,
    b2: usize,
    b3: usize,
    first: &[u64],
    second: &[u64],
    differences: &mut [i64],
) -> Compared
    ensures record { result
        ≡ compare_record b1 b2 b3 first.now second.now differences.old }
    ensures later { differences.new
        ≡ compare_later b1 b2 b3 first.now second.now differences.old }
{
    seluvava::tables::seluvava_compare(b1, b2, b3, first, second, differences)
}

// Clears what keeps a table from being sound, and says why.
#[unsafe(no_mangle)]
pub extern "C" fn seluvava_rescue(
    b1: usize,
    b2: usize,
    b3: usize,
    table: &mut [u64],
    reasons: &mut [u8],
) -> u8
    ensures number { result ≡ rescue_number b1 b2 b3 table.old reasons.old }
    ensures table { table.new ≡ rescue_table b1 b2 b3 table.old reasons.old }
    ensures reasons { reasons.new
        ≡ rescue_reasons b1 b2 b3 table.old reasons.old }
{
    seluvava::tables::seluvava_rescue(b1, b2, b3, table, reasons)
}
