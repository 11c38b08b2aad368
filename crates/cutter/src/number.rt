// What a cut refuses on an accepted grid, in the order of the answers.
ghost use Rattle.std.specs.Prelude.{◌≡◌, ◌≤◌};
ghost use Rattle.grid.specs.Grid.{Accepted, bins_of};
ghost use Rattle.basics.specs.Refusal.{answer_of};
ghost use Rattle.table.specs.Layout.{laid, laid_view, is_sized_in};
ghost use Rattle.table.specs.Sound.{limit_of};
ghost use Rattle.cutter.specs.Cut.{work_fits, long_enough, cut_number_on};

use basics::refusal::Refusal;
use grid::place::{Grid, bins};
use sums::source::Source;
use table::layout::Layout;
use table::sound::sound_total;

// Whether the work table is what its source of sums asks for, from whether it is one of the grid.
fn work_fits(source: Source, sized: bool) -> bool
    ensures { result ≡ work_fits source sized }
{
    match source {
        Source::Moments => sized,
        Source::Bins => true,
    }
}

// Whether the lengths of what is lent are right for a k within its bounds. Of table and work table it is told whether
// they are tables of the grid.
fn long_enough(
    source: Source,
    g: Grid,
    k: usize,
    table: bool,
    work: bool,
    palette: usize,
    counts: usize,
    remainders: usize,
    map: usize,
) -> bool
    requires { Accepted g × (k ≤ 256) }
    ensures { result
        ≡ long_enough source g k table
        (record { work = work; palette = palette; counts = counts; remainders = remainders; map = map }) }
{
    table
        && work_fits(source, work)
        && palette >= 3 * k
        && counts >= k
        && remainders >= 3 * k
        && map == bins(g)
}

// Whether a cut on an accepted grid is refused.
pub(crate) fn check<L: Layout>(
    source: Source,
    small: &[u32],
    large: &[u64],
    g: Grid,
    k: usize,
    work: bool,
    palette: usize,
    counts: usize,
    remainders: usize,
    map: usize,
) -> Result<(), Refusal>
    requires { Accepted g }
    ensures { answer_of result
        ≡ cut_number_on (limit_of L.layout) g k
        (long_enough source g k (is_sized_in L.layout (laid L.layout small.now large.now) (bins_of g))
        (record { work = work; palette = palette; counts = counts; remainders = remainders; map = map }))
        (laid_view L.layout small.now large.now) }
{
    if k < 1 || 256 < k {
        return Err(Refusal::BoxCount);
    }
    let table = L::fits(small.len(), large.len(), g);
    if !long_enough(source, g, k, table, work, palette, counts, remainders, map) {
        return Err(Refusal::Length);
    }
    let total = sound_total::<L>(small, large, g).ok_or(Refusal::Unsound)?;
    if total == 0 {
        return Err(Refusal::NoWeight);
    }
    Ok(())
}
