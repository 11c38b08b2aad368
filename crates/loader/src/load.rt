// Loading: a batch of colours is added to a table.
ghost use Rattle.std.specs.Prelude.{◌≡◌, true, ◌/◌, length, is_some};
ghost use Rattle.table.specs.Layout.{laid};
ghost use Rattle.basics.specs.Refusal.{answer_of};
ghost use Rattle.adder.specs.Batch.{scaled_weights};
ghost use Rattle.adder.specs.Add.{given, IsScale};
ghost use Rattle.loader.specs.Load.{load_number_in, load_later_in};

use adder::add::add_batch;
use adder::steps::Steps;
use basics::refusal::Refusal;
use grid::place::grid_of;
use table::layout::Layout;
use table::sound::sound_total;

// Adds a batch of colours to a table, each weight multiplied by a scale.
pub fn load_scaled<L: Layout>(
    scale: u64,
    b1: usize,
    b2: usize,
    b3: usize,
    small: &mut [u32],
    large: &mut [u64],
    colours: &[u8],
    weights: Option<&[u32]>,
) -> Result<(), Refusal>
    requires { IsScale scale }
    ensures number { answer_of result
        ≡ load_number_in L.layout b1 b2 b3 (laid L.layout small.old large.old)
        colours.now true
        (scaled_weights scale (length colours.now / 3) (is_some weights.entry) (given weights.entry)) }
    ensures later { laid L.layout small.new large.new
        ≡ load_later_in L.layout b1 b2 b3 (laid L.layout small.old large.old)
        colours.now true
        (scaled_weights scale (length colours.now / 3) (is_some weights.entry) (given weights.entry)) }
{
    let g = grid_of(b1, b2, b3).ok_or(Refusal::Grid)?;
    if colours.len() % 3 != 0 {
        return Err(Refusal::SplitColour);
    }
    if let Some(weights) = weights {
        if weights.len() != colours.len() / 3 {
            return Err(Refusal::WeightCount);
        }
    }
    if !L::fits(small.len(), large.len(), g) {
        return Err(Refusal::Length);
    }
    let had = sound_total::<L>(small, large, g).ok_or(Refusal::Unsound)?;
    let steps = Steps::of(g);
    add_batch::<L>(&steps, small, large, had, colours, weights, scale).ok_or(L::too_heavy())?;
    Ok(())
}

// Adds a batch of colours to a table.
pub fn load<L: Layout>(
    b1: usize,
    b2: usize,
    b3: usize,
    small: &mut [u32],
    large: &mut [u64],
    colours: &[u8],
    weights: Option<&[u32]>,
) -> Result<(), Refusal>
    ensures number { answer_of result
        ≡ load_number_in L.layout b1 b2 b3 (laid L.layout small.old large.old)
        colours.now (is_some weights.entry) (given weights.entry) }
    ensures later { laid L.layout small.new large.new
        ≡ load_later_in L.layout b1 b2 b3 (laid L.layout small.old large.old)
        colours.now (is_some weights.entry) (given weights.entry) }
{
    load_scaled::<L>(1, b1, b2, b3, small, large, colours, weights)
}
