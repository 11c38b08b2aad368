// How a box climbs and a hole sinks in the room of a heap (Rules, Heap): the code carries the box that enters, and
// writes it once.
ghost use Rattle.std.specs.Prelude.{◌≡◌, ◌+◌, ◌*◌, ◌<◌, ◌≤◌, length};
ghost use Rattle.heap.specs.Heap.{child, enter, sink as sink_in};
ghost use Rattle.heap.specs.Boxes.{by_spread};

use crate::heap::BoxSpread;

// A box enters at a place and climbs.
pub(crate) fn climb<B: Copy>(room: &mut [BoxSpread<B>; 256], at: usize, x: BoxSpread<B>)
    requires { at < 256 }
    ensures entered { (none : _) → room.new ≡ enter by_spread none (record { room = room.old; hole = at }) x }
    ensures long { length room.new ≡ 256 }
{
    let mut p = at;
    while 0 < p {
        let parent = (p - 1) / 2;
        if room[parent].spread < x.spread {
            room[p] = room[parent];
            p = parent;
        } else {
            break;
        }
    }
    room[p] = x;
}

// Which of two children moves up.
fn child<B: Copy>(room: &[BoxSpread<B>; 256], p: usize) -> usize
    requires { 2 * p + 2 < 256 }
    ensures chosen { (none : _) → result ≡ child by_spread none room.now p }
    ensures below { (p < result) × (result ≤ 2 * p + 2) }
{
    let left = 2 * p + 1;
    let right = 2 * p + 2;
    if room[left].spread <= room[right].spread {
        right
    } else {
        left
    }
}

// Sinks a hole from place 0 among the first `len` places, and answers where it ends.
pub(crate) fn sink<B: Copy>(room: &mut [BoxSpread<B>; 256], len: usize) -> usize
    requires { len ≤ 256 }
    ensures hole { (none : _) → result ≡ (sink_in by_spread none len room.old len 0).hole }
    ensures room { (none : _) → room.new ≡ (sink_in by_spread none len room.old len 0).room }
    ensures long { length room.new ≡ 256 }
{
    let mut hole = 0;
    while 2 * hole + 2 < len {
        let up = child(room, hole);
        room[hole] = room[up];
        hole = up;
    }
    let left = 2 * hole + 1;
    if left < len {
        room[hole] = room[left];
        return left;
    }
    hole
}
