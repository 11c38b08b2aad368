// The call: a palette is refused, or each of its entries gets a number.
ghost use Rattle.std.specs.Prelude.{◌≡◌, ◌≤◌, length};
ghost use Rattle.basics.specs.Refusal.{answer_of};
ghost use Rattle.terminal.specs.Nearest.{entries_in, numbers_for, nearest_number, nearest_later};

use crate::closest::Planes;
use basics::refusal::Refusal;
use pixels::colour::colour;

// The answer to a palette and a list.
fn nearest_number(palette: &[u8], answers: &[u8]) -> Result<(), Refusal>
    ensures { answer_of result ≡ nearest_number palette.now answers.now }
{
    if palette.len() < 3
        || 768 < palette.len()
        || palette.len() % 3 != 0
        || answers.len() < palette.len() / 3
    {
        return Err(Refusal::Length);
    }
    Ok(())
}

// The number for each entry of a palette, one after the other.
fn fill(planes: &Planes, palette: &[u8], answers: &mut [u8])
    requires { entries_in palette.now ≤ length answers.old }
    ensures { answers.new ≡ numbers_for palette.now answers.old }
{
    for i in 0..palette.len() / 3 {
        answers[i] = planes.closest(colour(palette, i));
    }
}

// For each entry of a palette the number of the nearest of the 240 colours, into a list of answers.
#[tactic(auto, using(crate::proofs::Calls::nearest_room, crate::proofs::Calls::nearest_done, crate::proofs::Calls::nearest_kept, basics::proofs::Refusals::not_done))]
pub fn nearest(palette: &[u8], answers: &mut [u8]) -> Result<(), Refusal>
    ensures number { answer_of result ≡ nearest_number palette.now answers.old }
    ensures later { answers.new ≡ nearest_later palette.now answers.old }
{
    nearest_number(palette, answers)?;
    fill(&Planes::of_table(), palette, answers);
    Ok(())
}
