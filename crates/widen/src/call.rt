// Widening: the wide table of a narrow one.
ghost use Rattle.std.specs.Prelude.{◌≡◌};
ghost use Rattle.grid.specs.Grid.{bins_of};
ghost use Rattle.basics.specs.Refusal.{answer_of};
ghost use Rattle.table.specs.Narrow.{narrow_table};
ghost use Rattle.widen.specs.Widen.{widened, widen_number, widen_later};
ghost use Rattle.widen.specs.Inner.{Widens};

use basics::refusal::Refusal;
use grid::place::{Grid, bins, grid_of};
use table::layout::{Layout, Narrow};
use table::sound::sound_total;
use table::wide::{put_at, table_len};

// Writes the bins of a narrow table over those of a wide one.
fn widen_bins(g: Grid, sums: &[u32], squares: &[u64], table: &mut [u64])
    requires { Widens g (narrow_table sums.now squares.now) table.old }
    ensures { table.new
        ≡ widened (bins_of g) (narrow_table sums.now squares.now) }
{
    for p in 0..bins(g) {
        let c = Narrow::cell(sums, squares, p);
        put_at(table, p, c);
    }
}

// Writes the wide table of a narrow one.
#[tactic(auto, using(table::proofs::Tables::sized_is, table::proofs::Layouts::lengths_are, table::proofs::Total::unsound_says, table::proofs::Total::total_says), unfolding(crate::specs::Widen::widen_number, crate::specs::Widen::widen_later, crate::specs::Widen::widen_on, crate::specs::Widen::widen_number_on, grid::specs::Grid::number_on, grid::specs::Grid::on_grid, grid::specs::Grid::grid_answer, basics::specs::Answer::refuse, basics::specs::Answer::when_done))]
pub fn widen(
    b1: usize,
    b2: usize,
    b3: usize,
    sums: &[u32],
    squares: &[u64],
    table: &mut [u64],
) -> Result<(), Refusal>
    ensures number { answer_of result
        ≡ widen_number b1 b2 b3 (narrow_table sums.now squares.now) table.old }
    ensures later { table.new
        ≡ widen_later b1 b2 b3 (narrow_table sums.now squares.now) table.old }
{
    let g = grid_of(b1, b2, b3).ok_or(Refusal::Grid)?;
    if !Narrow::fits(sums.len(), squares.len(), g) || table.len() != table_len(g) {
        return Err(Refusal::Length);
    }
    sound_total::<Narrow>(sums, squares, g).ok_or(Refusal::Unsound)?;
    widen_bins(g, sums, squares, table);
    Ok(())
}
