// The boxes of a cut, gathered from the heap at the end of the loop.
ghost use Rattle.std.specs.Prelude.{◌≡◌, ◌≤◌};
ghost use Rattle.table.specs.Layout.{laid, laid_view};
ghost use Rattle.table.specs.Sound.{limit};
ghost use Rattle.sums.specs.Moments.{CanSum};
ghost use Rattle.rounds.specs.Loop.{places_of, boxes_of};

use crate::rounds::all_rounds;
use boxes::sides::Bounds;
use grid::place::Grid;
pub use heap::heap::BoxSpread;
use heap::heap::Heap;
use sums::source::Source;
use table::layout::Layout;

// The boxes of a cut in order: how many there are, how often the top was taken out, and a place for each box, all zeros
// past the last.
#[derive(Clone, Copy)]
pub struct Boxes {
    pub boxes: usize,
    pub rounds: usize,
    pub places: [BoxSpread; 256],
}

// The places of a record of the boxes in a heap.
fn gathered(heap: &Heap) -> [BoxSpread; 256]
    ensures { result ≡ places_of heap.now.room heap.now.len }
{
    let mut places = *heap.room();
    places[heap.len()..].fill(BoxSpread::default());
    places
}

// The boxes that a table is cut into, at most k, or one where k is 0 (`cubes_heap`).
pub fn cut_boxes<L: Layout>(
    small: &[u32],
    large: &[u64],
    smallwork: &[u32],
    largework: &[u64],
    source: Source,
    g: Grid,
    k: usize,
) -> Boxes
    requires { CanSum L.layout limit source g (laid L.layout small.now large.now)
        (laid L.layout smallwork.now largework.now) × (k ≤ 256) }
    ensures { result ≡ boxes_of g (laid_view L.layout small.now large.now) k }
{
    let mut heap = Heap::new(BoxSpread::default());
    heap.put_in(BoxSpread {
        bounds: Bounds::whole(g),
        spread: f64::INFINITY,
    });
    let rounds = all_rounds::<L>(small, large, smallwork, largework, source, g, k, &mut heap);
    Boxes {
        boxes: heap.len(),
        rounds,
        places: gathered(&heap),
    }
}
