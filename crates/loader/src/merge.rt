// Merging: a second table is added into a first.
ghost use Rattle.std.specs.Prelude.{◌≡◌};
ghost use Rattle.grid.specs.Grid.{bins_of};
ghost use Rattle.basics.specs.Refusal.{answer_of};
ghost use Rattle.table.specs.Layout.{laid, laid_view, written_in};
ghost use Rattle.loader.specs.Merge.{merged, merge_number_in, merge_later_in};
ghost use Rattle.loader.specs.Inner.{MergeFits};

use adder::shares::add_at;
use basics::refusal::Refusal;
use grid::place::{Grid, bins, grid_of};
use table::layout::Layout;
use table::sound::sound_total;

// Adds the cells of a second table to those of a first.
fn add_cells<L: Layout>(
    g: Grid,
    small: &mut [u32],
    large: &mut [u64],
    smallsecond: &[u32],
    largesecond: &[u64],
)
    requires { MergeFits L.layout g (laid L.layout small.old large.old)
        (laid L.layout smallsecond.now largesecond.now) }
    ensures { laid L.layout small.new large.new
        ≡ written_in L.layout (bins_of g)
        (merged (laid_view L.layout small.old large.old)
        (laid_view L.layout smallsecond.now largesecond.now)) }
{
    for p in 0..bins(g) {
        let c = L::cell(smallsecond, largesecond, p);
        add_at::<L>(small, large, p, c);
    }
}

// Adds a second table into a first.
pub fn merge<L: Layout>(
    b1: usize,
    b2: usize,
    b3: usize,
    small: &mut [u32],
    large: &mut [u64],
    smallsecond: &[u32],
    largesecond: &[u64],
) -> Result<(), Refusal>
    ensures number { answer_of result
        ≡ merge_number_in L.layout b1 b2 b3 (laid L.layout small.old large.old)
        (laid L.layout smallsecond.now largesecond.now) }
    ensures later { laid L.layout small.new large.new
        ≡ merge_later_in L.layout b1 b2 b3 (laid L.layout small.old large.old)
        (laid L.layout smallsecond.now largesecond.now) }
{
    let g = grid_of(b1, b2, b3).ok_or(Refusal::Grid)?;
    if !L::fits(small.len(), large.len(), g) || !L::fits(smallsecond.len(), largesecond.len(), g) {
        return Err(Refusal::Length);
    }
    let had = sound_total::<L>(small, large, g).ok_or(Refusal::Unsound)?;
    let more = sound_total::<L>(smallsecond, largesecond, g).ok_or(Refusal::Unsound)?;
    if L::limit() - had < more {
        return Err(L::too_heavy());
    }
    add_cells::<L>(g, small, large, smallsecond, largesecond);
    Ok(())
}
