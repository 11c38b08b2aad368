// The colours of a batch, a block at a time.
ghost use Rattle.std.specs.Prelude.{◌≡◌, ◌+◌, ◌*◌, ◌/◌, ◌≤◌, ◌<◌, length, is_some};
ghost use Rattle.table.specs.Layout.{laid};
ghost use Rattle.adder.specs.Add.{given};
ghost use Rattle.adder.specs.Inner.{last_equal, with_part, PartFits};

use crate::shares::add_colour;
use crate::steps::Steps;
use crate::weights::{block_weight, weight_at};
use pixels::colour::colour;
use pixels::equal::equal_colours;
use table::layout::Layout;

// Adds n colours of a batch, from colour at on, one after the other. It is inlined, so that the compiler makes a loop of
// its own where the scale is 1 or no weights are given.
#[inline(always)]
fn add_each<L: Layout>(
    steps: &Steps,
    small: &mut [u32],
    large: &mut [u64],
    colours: &[u8],
    weights: Option<&[u32]>,
    scale: u64,
    at: usize,
    n: usize,
)
    requires { PartFits L.layout steps.now.g (laid L.layout small.old large.old) scale colours.now
        (is_some weights) (given weights) at n }
    ensures { laid L.layout small.new large.new
        ≡ with_part L.layout steps.now.g (laid L.layout small.old large.old) scale colours.now
        (is_some weights.entry) (given weights.entry) at n }
{
    for k in 0..n {
        let i = at + k;
        let w = weight_at(weights, scale, i);
        add_colour::<L>(steps, small, large, colour(colours, i), w);
    }
}

// Adds a block of 64 colours: at once where they are equal, else each by itself. Whether the scale is 1 and weights are
// given is asked before each loop, so that a loop need not multiply by a scale or a weight that is 1.
fn add_block<L: Layout>(
    steps: &Steps,
    small: &mut [u32],
    large: &mut [u64],
    colours: &[u8],
    weights: Option<&[u32]>,
    scale: u64,
    at: usize,
)
    requires fits { PartFits L.layout steps.now.g (laid L.layout small.old large.old) scale colours.now
        (is_some weights) (given weights) at 64 }
    requires whole { 3 * at + 194 < length colours.now }
    ensures { laid L.layout small.new large.new
        ≡ with_part L.layout steps.now.g (laid L.layout small.old large.old) scale colours.now
        (is_some weights.entry) (given weights.entry) at 64 }
{
    if equal_colours(colours, at) {
        let w = block_weight(weights, scale, at, 64);
        add_colour::<L>(steps, small, large, colour(colours, at), w);
        return;
    }
    if scale != 1 {
        add_each::<L>(steps, small, large, colours, weights, scale, at, 64);
        return;
    }
    match weights {
        Some(weights) => add_each::<L>(steps, small, large, colours, Some(weights), 1, at, 64),
        None => add_each::<L>(steps, small, large, colours, None, 1, at, 64),
    }
}

// Whether n colours, at most 64, are seen to be equal: some, and the last of 65 equal ones.
fn last_equal(colours: &[u8], at: usize, n: usize) -> bool
    requires { at + n ≤ length colours.now / 3 }
    ensures { result ≡ last_equal colours.now at n }
{
    let end = at + n;
    n != 0 && 64 < end && equal_colours(colours, end - 65)
}

// Adds the last colours of a batch, at most 64: at once where they are seen to be equal, else each by itself. A replay
// has such colours at the end of every batch.
fn add_last<L: Layout>(
    steps: &Steps,
    small: &mut [u32],
    large: &mut [u64],
    colours: &[u8],
    weights: Option<&[u32]>,
    scale: u64,
    at: usize,
    n: usize,
)
    requires fits { PartFits L.layout steps.now.g (laid L.layout small.old large.old) scale colours.now
        (is_some weights) (given weights) at n }
    requires few { n ≤ 64 }
    ensures { laid L.layout small.new large.new
        ≡ with_part L.layout steps.now.g (laid L.layout small.old large.old) scale colours.now
        (is_some weights.entry) (given weights.entry) at n }
{
    if last_equal(colours, at, n) {
        let w = block_weight(weights, scale, at, n);
        add_colour::<L>(steps, small, large, colour(colours, at), w);
        return;
    }
    add_each::<L>(steps, small, large, colours, weights, scale, at, n);
}

// Adds the first n colours of a batch, a block at a time.
pub(crate) fn add_blocks<L: Layout>(
    steps: &Steps,
    small: &mut [u32],
    large: &mut [u64],
    colours: &[u8],
    weights: Option<&[u32]>,
    scale: u64,
    n: usize,
)
    requires { PartFits L.layout steps.now.g (laid L.layout small.old large.old) scale colours.now
        (is_some weights) (given weights) 0 n }
    ensures { laid L.layout small.new large.new
        ≡ with_part L.layout steps.now.g (laid L.layout small.old large.old) scale colours.now
        (is_some weights.entry) (given weights.entry) 0 n }
{
    let mut i = 0;
    // No range: how many whole blocks leave 1 to 64 colours is (n - 1) / 64, and 0 of none, which says it less plainly.
    while 64 < n - i {
        add_block::<L>(steps, small, large, colours, weights, scale, i);
        i += 64;
    }
    add_last::<L>(steps, small, large, colours, weights, scale, i, n - i);
}
