// The closest of the 240 colours to one colour.
ghost use Rattle.std.specs.Prelude.{◌≡◌, ◌+◌, ◌≤◌, ◌<◌};
ghost use Rattle.terminal.specs.Nearest.{difference_of, square_of, distance_of, nearest_of};
ghost use Rattle.terminal.specs.Inner.{Planes};

use crate::planes::{colours, plane};
use pixels::colour::Rgb;

// The difference of two components, whichever is the larger.
#[tactic(auto, unfolding(crate::specs::Nearest::difference_of))]
fn difference(a: u8, b: u8) -> u16
    ensures { (result ≡ difference_of a b) × (result ≤ 255) }
{
    u16::from(a.abs_diff(b))
}

// The square of that. It fits 16 bits, of which the machine multiplies many at once.
fn square(a: u8, b: u8) -> u32
    ensures { (result ≡ square_of a b) × (result ≤ 65025) }
{
    let by = difference(a, b);
    u32::from(by * by)
}

// The three planes of the colours: the reds, the greens and the blues, each in a row.
#[derive(Drop)]
pub(crate) struct Planes {
    reds: [u8; 240],
    greens: [u8; 240],
    blues: [u8; 240],
    ghost filled: { Planes reds greens blues },
}

impl Planes {
    // Those of the table.
    pub(crate) fn of_table() -> Planes {
        let table = colours();
        Planes {
            reds: plane(&table, 0),
            greens: plane(&table, 1),
            blues: plane(&table, 2),
        }
    }

    // The squared distance of a colour from number 16 + k.
    fn distance(&self, x: Rgb, k: usize) -> u32
        requires { k < 240 }
        ensures { (result ≡ distance_of x (16 + k)) × (result ≤ 195075) }
    {
        square(x.c1, self.reds[k]) + square(x.c2, self.greens[k]) + square(x.c3, self.blues[k])
    }

    // The number of the nearest colour. A distance and a number go together as one number, whose smallest has the
    // smallest distance and, on a tie, the lowest number: so the machine can take the smaller of many at once.
    #[tactic(auto, using(crate::proofs::Lowest::least_more))]
    pub(crate) fn closest(&self, x: Rgb) -> u8
        ensures { result ≡ nearest_of x }
    {
        let mut least = 256 * self.distance(x, 0) + 16;
        for k in 1..240 {
            let key = 256 * self.distance(x, k) + (16 + k) as u32;
            least = least.min(key);
        }
        (least % 256) as u8
    }
}
