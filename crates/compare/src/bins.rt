// Two sound tables, compared bin by bin.
ghost use Rattle.std.specs.Prelude.{◌≡◌, ◌+◌, ◌*◌, ◌^◌, ◌≤◌, ◌<◌, pos, ◌-ℤ◌, length};
ghost use Rattle.grid.specs.Grid.{bins_of};
ghost use Rattle.table.specs.Table.{view_of};
ghost use Rattle.table.specs.Sound.{limit};
ghost use Rattle.compare.specs.Compare.{differing, first_differing, differences_of};
ghost use Rattle.compare.specs.Inner.{less, with_differences, Small, Comparable};

use crate::call::Compared;
use grid::place::{Grid, bins};
use table::cell::Cell;
use table::wide::cell_at;

// One number taken from another.
fn taken_from(first: u64, second: u64) -> i64
    requires { (first < 2 ^ 50) × (second < 2 ^ 50) }
    ensures { result ≡ pos second -ℤ pos first }
{
    second as i64 - first as i64
}

// Writes the five differences of a bin.
fn put_differences(differences: &mut [i64], place: usize, a: Cell, b: Cell)
    requires { (5 * place + 5 ≤ length differences.old) × Small a × Small b }
    ensures { differences.new ≡ with_differences differences.old place (less a b) }
{
    let at = 5 * place;
    let weight = taken_from(a.weight, b.weight);
    let sum1 = taken_from(a.sum1, b.sum1);
    let sum2 = taken_from(a.sum2, b.sum2);
    let sum3 = taken_from(a.sum3, b.sum3);
    let squares = taken_from(a.squares, b.squares);
    differences[at] = weight;
    differences[at + 1] = sum1;
    differences[at + 2] = sum2;
    differences[at + 3] = sum3;
    differences[at + 4] = squares;
}

// Writes all differences, and counts the bins that differ.
pub(crate) fn compare_bins(
    g: Grid,
    first: &[u64],
    second: &[u64],
    differences: &mut [i64],
) -> Compared
    requires { Comparable limit g first.now second.now differences.old }
    ensures record { result
        ≡ record {
          number = 0;
          differ = differing (bins_of g) (view_of first.now) (view_of second.now);
          first = first_differing (bins_of g) (view_of first.now) (view_of second.now);
        } }
    ensures later { differences.new
        ≡ differences_of (bins_of g) (view_of first.now) (view_of second.now) }
{
    let n = bins(g);
    let mut differ = 0;
    let mut at = n;
    for p in 0..n {
        let a = cell_at(first, p);
        let b = cell_at(second, p);
        put_differences(differences, p, a, b);
        if a != b {
            if differ == 0 {
                at = p;
            }
            differ += 1;
        }
    }
    Compared {
        number: 0,
        differ,
        first: at,
    }
}
