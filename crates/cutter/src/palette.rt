// Palette, counts and remainders: a box's colour is the means of its components, its count its weight, and its
// remainders what the means leave of the sums.
ghost use Rattle.std.specs.Prelude.{◌≡◌, ◌+◌, ◌*◌, ◌≤◌, ◌<◌, length, set};
ghost use Rattle.table.specs.Layout.{laid, laid_view};
ghost use Rattle.table.specs.Sound.{limit};
ghost use Rattle.sums.specs.Moments.{CanSum};
ghost use Rattle.cutter.specs.Palette.{mean_of, colour_of, count_of, its_remainders, front_of};
ghost use Rattle.cutter.specs.Inner.{stats_colour, stats_remainders, with_colour_at, with_three_at};
ghost use Rattle.cutter.specs.Inner.{Coloured, Occupied};

use boxes::sides::Bounds;
use grid::place::Grid;
use sums::box_sums::{Stats, box_sum};
use sums::source::Source;
use table::layout::Layout;

// A component's mean, rounded down, and what that leaves of its sum.
#[derive(Clone, Copy)]
pub struct Divided {
    pub quotient: u8,
    pub remainder: u32,
}

fn mean(sum: u64, weight: u64) -> Divided
    requires { (0 < weight) × (weight ≤ limit) × (sum ≤ 255 * weight) }
    ensures { result ≡ mean_of sum weight }
{
    let quotient = (sum / weight) as u8;
    let remainder = (sum % weight) as u32;
    Divided {
        quotient,
        remainder,
    }
}

// Writes the colour of a box at place i of a palette.
fn put_colour(palette: &mut [u8], i: usize, s: Stats)
    requires { Coloured s × (3 * i + 2 < length palette.old) }
    ensures { palette.new ≡ with_colour_at palette.old i (stats_colour s) }
{
    let m1 = mean(s.sum1, s.weight);
    let m2 = mean(s.sum2, s.weight);
    let m3 = mean(s.sum3, s.weight);
    let at = 3 * i;
    palette[at] = m1.quotient;
    palette[at + 1] = m2.quotient;
    palette[at + 2] = m3.quotient;
}

// Writes the remainders of a box at place i.
fn put_remainders(remainders: &mut [u32], i: usize, s: Stats)
    requires { Coloured s × (3 * i + 2 < length remainders.old) }
    ensures { remainders.new ≡ with_three_at remainders.old i (stats_remainders s) }
{
    let m1 = mean(s.sum1, s.weight);
    let m2 = mean(s.sum2, s.weight);
    let m3 = mean(s.sum3, s.weight);
    let at = 3 * i;
    remainders[at] = m1.remainder;
    remainders[at + 1] = m2.remainder;
    remainders[at + 2] = m3.remainder;
}

// Writes the count of a box at place i.
fn put_count(counts: &mut [u32], i: usize, weight: u64)
    requires { (i < length counts.old) × (weight ≤ limit) }
    ensures { counts.new ≡ set counts.old i weight }
{
    counts[i] = weight as u32;
}

// Writes colour, count (`cube_color_and_count`) and remainders of a box at place i.
pub(crate) fn put_result<L: Layout>(
    small: &[u32],
    large: &[u64],
    smallwork: &[u32],
    largework: &[u64],
    source: Source,
    g: Grid,
    x: Bounds,
    i: usize,
    palette: &mut [u8],
    counts: &mut [u32],
    remainders: &mut [u32],
)
    requires can_sum { CanSum L.layout limit source g (laid L.layout small.now large.now)
        (laid L.layout smallwork.now largework.now) × Occupied g (laid_view L.layout small.now large.now) x }
    requires i_in_bounds { (3 * i + 2 < length palette.old) × (i < length counts.old)
        × (3 * i + 2 < length remainders.old) }
    ensures palette { palette.new
        ≡ with_colour_at palette.old i
        (colour_of g (laid_view L.layout small.now large.now) x) }
    ensures counts { counts.new
        ≡ set counts.old i (count_of g (laid_view L.layout small.now large.now) x) }
    ensures remainders { remainders.new
        ≡ with_three_at remainders.old i
        (its_remainders g (laid_view L.layout small.now large.now) x) }
{
    let s = box_sum::<L>(small, large, smallwork, largework, source, g, x);
    put_colour(palette, i, s);
    put_count(counts, i, s.weight);
    put_remainders(remainders, i, s);
}

// The filled front of a palette.
pub fn front(palette: &[u8], boxes: usize) -> &[u8]
    ensures { result.now ≡ front_of palette.now boxes }
{
    if palette.len() / 3 < boxes {
        return &palette[0..0];
    }
    let end = 3 * boxes;
    &palette[0..end]
}
