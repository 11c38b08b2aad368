// The colours of terminals.
ghost use Rattle.std.specs.Prelude.{◌≡◌};
ghost use Rattle.terminal.specs.Nearest.{nearest_number, nearest_later};

use basics::refusal::answer;

// For each entry of a palette the number of the nearest of a terminal's 240 fixed colours.
pub fn seluvava_nearest(palette: &[u8], answers: &mut [u8]) -> u8
    ensures number { result ≡ nearest_number palette.now answers.old }
    ensures later { answers.new ≡ nearest_later palette.now answers.old }
{
    answer(terminal::call::nearest(palette, answers))
}
