// Rescuing: the bins that keep a table from being sound are cleared, each with its reason.
ghost use Rattle.std.specs.Prelude.{◌≡◌};
ghost use Rattle.basics.specs.Refusal.{answer_of};
ghost use Rattle.rescue.specs.Rescue.{rescue_number, rescue_table, rescue_reasons};

use crate::bins::walk;
use basics::refusal::Refusal;
use grid::place::{bins, grid_of};
use table::wide::table_len;

// Clears what keeps a table from being sound, and says why.
#[tactic(auto, using(table::proofs::Tables::sized_is), unfolding(crate::specs::Rescue::rescue_number, crate::specs::Rescue::rescue_table, crate::specs::Rescue::rescue_reasons, crate::specs::Rescue::rescue_leaves, crate::specs::Rescue::rescue_on, grid::specs::Grid::number_on, grid::specs::Grid::on_grid, grid::specs::Grid::grid_answer, basics::specs::Answer::refuse, basics::specs::Answer::when_done))]
pub fn rescue(
    b1: usize,
    b2: usize,
    b3: usize,
    table: &mut [u64],
    reasons: &mut [u8],
) -> Result<(), Refusal>
    ensures number { answer_of result ≡ rescue_number b1 b2 b3 table.old reasons.old }
    ensures table { table.new ≡ rescue_table b1 b2 b3 table.old reasons.old }
    ensures reasons { reasons.new
        ≡ rescue_reasons b1 b2 b3 table.old reasons.old }
{
    let g = grid_of(b1, b2, b3).ok_or(Refusal::Grid)?;
    if table.len() != table_len(g) || reasons.len() != bins(g) {
        return Err(Refusal::Length);
    }
    walk(g, table, reasons);
    Ok(())
}
