// Spread and score of boxes, in f64.
ghost use Rattle.std.specs.Prelude.{◌≡◌};
ghost use Rattle.boxes.specs.Box.{Ordered};
ghost use Rattle.spread.specs.Spread.{quotient_of, spread_of, score_of, Plain};

use boxes::sides::Bounds;
use sums::box_sums::{Stats, in_float};

// Q/n.
#[tactic(auto, unfolding(crate::specs::Spread::quotient_of))]
fn quotient(s: Stats) -> f64
    requires { Plain s }
    ensures { result ≡ quotient_of s }
{
    let a = in_float(s.sum1);
    let b = in_float(s.sum2);
    let c = in_float(s.sum3);
    let n = in_float(s.weight);
    (a * a + b * b + c * c) / n
}

// The spread of a box (`variance`).
#[tactic(auto, unfolding(crate::specs::Spread::spread_of))]
pub fn spread(x: Bounds, s: Stats) -> f64
    requires { Ordered x × Plain s }
    ensures { result ≡ spread_of x s }
{
    if x.is_one_bin() {
        return 0.0;
    }
    s.squares - quotient(s)
}

// The score of a position, from the statistics of its two sides.
#[tactic(auto, unfolding(crate::specs::Spread::score_of))]
pub fn score(low: Stats, high: Stats) -> f64
    requires { Plain low × Plain high }
    ensures { result ≡ score_of low high }
{
    -(quotient(low) + quotient(high))
}
