// Adding a batch to a table that is known to be sound, by a step table that is filled once.
ghost use Rattle.std.specs.Prelude.{◌≡◌, is_some};
ghost use Rattle.table.specs.Layout.{laid};
ghost use Rattle.table.specs.Sound.{limit_of};
ghost use Rattle.adder.specs.Add.{KnownIn, Whole, IsScale, given, scaled_batch, added_to, added_later_in};

use crate::blocks::add_blocks;
use crate::steps::Steps;
use crate::weights::batch_total;
use table::layout::Layout;

// Adds a batch of colours to a sound table whose total is known, each weight multiplied by the scale. Answers the total
// then, or that it would pass the limit.
pub fn add_batch<L: Layout>(
    steps: &Steps,
    small: &mut [u32],
    large: &mut [u64],
    had: u64,
    colours: &[u8],
    weights: Option<&[u32]>,
    scale: u64,
) -> Option<u64>
    requires known { KnownIn L.layout (limit_of L.layout) steps.now.g (laid L.layout small.old large.old) had }
    requires whole { Whole colours.now (is_some weights) (given weights) }
    requires scale { IsScale scale }
    ensures answer { result
        ≡ added_to (limit_of L.layout) had
        (scaled_batch scale colours.now (is_some weights.entry) (given weights.entry)) }
    ensures later { laid L.layout small.new large.new
        ≡ added_later_in L.layout (limit_of L.layout) steps.now.g (laid L.layout small.old large.old) had
        (scaled_batch scale colours.now (is_some weights.entry) (given weights.entry)) }
{
    let n = colours.len() / 3;
    let total = batch_total(L::limit(), had, n, weights, scale)?;
    add_blocks::<L>(steps, small, large, colours, weights, scale, n);
    Some(total)
}
