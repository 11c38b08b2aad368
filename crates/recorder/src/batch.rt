// A batch that says its own interval.
ghost use Rattle.std.specs.Prelude.{◌≡◌, is_some};
ghost use Rattle.basics.specs.Refusal.{answer_of};
ghost use Rattle.adder.specs.Add.{given};
ghost use Rattle.recorder.specs.Batch.{in_force, batch_number, batch_later};

use crate::session::{Session, in_range};
use basics::refusal::Refusal;
use loader::load::load_scaled;
use table::layout::Wide;

// Refuses an interval that is out of range or not in force.
pub(crate) fn in_force(s: Session, interval: u32) -> Result<(), Refusal>
    ensures { answer_of result ≡ in_force s interval 0 }
{
    in_range(interval)?;
    if interval != s.interval {
        return Err(Refusal::NotInForce);
    }
    Ok(())
}

// Adds a batch of colours to a table, each weight multiplied by its interval.
#[tactic(auto, using(crate::proofs::Batches::batch_ends))]
pub fn batch(
    s: Session,
    interval: u32,
    b1: usize,
    b2: usize,
    b3: usize,
    table: &mut [u64],
    colours: &[u8],
    weights: Option<&[u32]>,
) -> Result<(), Refusal>
    ensures number { answer_of result
        ≡ batch_number s interval b1 b2 b3 table.old colours.now (is_some weights.entry)
        (given weights.entry) }
    ensures later { table.new
        ≡ batch_later s interval b1 b2 b3 table.old colours.now (is_some weights.entry)
        (given weights.entry) }
{
    in_force(s, interval)?;
    let mut none = [0u32; 0];
    load_scaled::<Wide>(
        u64::from(interval),
        b1,
        b2,
        b3,
        &mut none,
        table,
        colours,
        weights,
    )
}
