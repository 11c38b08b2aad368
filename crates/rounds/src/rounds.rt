// The rounds of the loop: one takes the top out and cuts it, or puts it back.
ghost use Rattle.std.specs.Prelude.{◌≡◌, ◌+◌, ◌<◌, ◌≤◌};
ghost use Rattle.table.specs.Layout.{laid, laid_view};
ghost use Rattle.table.specs.Sound.{limit};
ghost use Rattle.boxes.specs.Box.{Within, Ordered};
ghost use Rattle.sums.specs.Moments.{CanSum};
ghost use Rattle.spread.specs.Cut.{best_cut};
ghost use Rattle.spread.specs.Spread.{spread_of, Plain};
ghost use Rattle.heap.specs.Heap.{item};
ghost use Rattle.rounds.specs.Loop.{no_item, start_room, room_after, boxes_after, round_room, round_boxes, heap_of};

use boxes::sides::Bounds;
use grid::place::Grid;
use heap::heap::{BoxSpread, Heap};
use spread::search::best_cut;
use spread::spread::spread;
use sums::box_sums::Stats;
use sums::source::Source;
use table::layout::Layout;

// A box with its own spread, which its statistics give.
fn with_spread(bounds: Bounds, s: Stats) -> BoxSpread
    requires { Ordered bounds × Plain s }
    ensures { result ≡ record { bounds = bounds; spread = spread_of bounds s } }
{
    BoxSpread {
        bounds,
        spread: spread(bounds, s),
    }
}

// Cuts a box that was taken out.
fn cut_top<L: Layout>(
    small: &[u32],
    large: &[u64],
    smallwork: &[u32],
    largework: &[u64],
    source: Source,
    g: Grid,
    heap: &mut Heap,
    x: Bounds,
)
    requires can_sum { CanSum L.layout limit source g (laid L.layout small.now large.now)
        (laid L.layout smallwork.now largework.now) × Within g x }
    requires room_for_two { heap.old.len + 1 < 256 }
    ensures boxes { heap.new.len
        ≡ boxes_after heap.old.len (best_cut g (laid_view L.layout small.now large.now) x) }
    ensures room { heap.new.room
        ≡ room_after g (laid_view L.layout small.now large.now) heap.old.room heap.old.len x
        (best_cut g (laid_view L.layout small.now large.now) x) }
{
    let Some(best) = best_cut::<L>(small, large, smallwork, largework, source, g, x) else {
        heap.put_in(BoxSpread {
            bounds: x,
            spread: 0.0,
        });
        return;
    };
    let at = best.position;
    let low = with_spread(x.low_side(at.dimension, at.bin), best.low);
    let high = with_spread(x.high_side(at.dimension, at.bin), best.high);
    heap.put_in(low);
    heap.put_in(high);
}

// One round.
fn round<L: Layout>(
    small: &[u32],
    large: &[u64],
    smallwork: &[u32],
    largework: &[u64],
    source: Source,
    g: Grid,
    heap: &mut Heap,
)
    requires can_sum { CanSum L.layout limit source g (laid L.layout small.now large.now)
        (laid L.layout smallwork.now largework.now) }
    requires some { (0 < heap.old.len) × (heap.old.len < 256)
        × Within g (item no_item heap.old.room 0).bounds }
    ensures boxes { heap.new.len
        ≡ round_boxes g (laid_view L.layout small.now large.now) heap.old.room heap.old.len }
    ensures room { heap.new.room
        ≡ round_room g (laid_view L.layout small.now large.now) heap.old.room heap.old.len }
{
    let top = heap.take_out();
    if 0.0 < top.spread {
        cut_top::<L>(
            small, large, smallwork, largework, source, g, heap, top.bounds,
        );
    } else {
        heap.put_in(top);
    }
}

// All rounds; answers how often the top was taken out.
pub(crate) fn all_rounds<L: Layout>(
    small: &[u32],
    large: &[u64],
    smallwork: &[u32],
    largework: &[u64],
    source: Source,
    g: Grid,
    k: usize,
    heap: &mut Heap,
) -> usize
    requires can_sum { CanSum L.layout limit source g (laid L.layout small.now large.now)
        (laid L.layout smallwork.now largework.now) × (k ≤ 256) }
    requires start { (heap.old.len ≡ 1) × (heap.old.room ≡ start_room g) }
    ensures rounds { result ≡ (heap_of g (laid_view L.layout small.now large.now) k).rounds }
    ensures boxes { heap.new.len ≡ (heap_of g (laid_view L.layout small.now large.now) k).boxes }
    ensures room { heap.new.room ≡ (heap_of g (laid_view L.layout small.now large.now) k).room }
{
    let mut rounds = 0;
    while heap.len() < k {
        let more = 0.0 < heap.top().spread;
        round::<L>(small, large, smallwork, largework, source, g, heap);
        rounds += 1;
        if !more {
            break;
        }
    }
    rounds
}
