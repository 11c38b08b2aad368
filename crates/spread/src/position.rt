// A position to cut a box at, and which of two is better.
ghost use Rattle.std.specs.Prelude.{◌≡◌};
ghost use Rattle.spread.specs.Spread.{Plain};
ghost use Rattle.spread.specs.Cut.{position_of, later_wins, better as better_of};

use crate::spread::score;
use sums::box_sums::Stats;

// A position to cut a box at, with its score.
#[derive(Clone, Copy)]
pub struct Position {
    pub dimension: u8,
    pub bin: u8,
    pub score: f64,
}

// The position between two sides, unless one of them is empty.
#[tactic(auto, unfolding(crate::specs::Cut::position_of))]
pub fn position_between(dimension: u8, bin: u8, low: Stats, high: Stats) -> Option<Position>
    requires { Plain low × Plain high }
    ensures { result ≡ position_of dimension bin low high }
{
    if low.weight == 0 || high.weight == 0 {
        return None;
    }
    Some(Position {
        dimension,
        bin,
        score: score(low, high),
    })
}

// Whether the later of two positions wins.
#[tactic(auto, unfolding(crate::specs::Cut::later_wins))]
pub(crate) fn later_wins(earlier: Option<Position>, later: Option<Position>) -> bool
    ensures { result ≡ later_wins earlier later }
{
    match (earlier, later) {
        (_, None) => false,
        (None, Some(_)) => true,
        (Some(earlier), Some(later)) => later.score < earlier.score,
    }
}

// Of two positions the later where it wins, else the earlier.
#[tactic(auto, unfolding(crate::specs::Cut::better))]
pub fn better(earlier: Option<Position>, later: Option<Position>) -> Option<Position>
    ensures { result ≡ better_of earlier later }
{
    if later_wins(earlier, later) {
        later
    } else {
        earlier
    }
}
