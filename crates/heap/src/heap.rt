// The heap (Rules, Heap) of boxes with their spreads.
ghost use Rattle.std.specs.Prelude.{◌≡◌, ◌+◌, ◌-◌, ◌<◌, ◌≤◌, length, replicate};

use crate::carry::{climb, sink};
use boxes::sides::Bounds;

// A box with its spread (`CubeVar`). The heap does not look into the box, so that it may be of any type.
#[derive(Clone, Copy, PartialEq, Default)]
pub struct BoxSpread<B = Bounds> {
    pub bounds: B,
    pub spread: f64,
}

// A room of 256 places, of which the first `len` are in use; the others keep what stood there.
#[derive(Drop)]
pub struct Heap<B = Bounds> {
    pub room: [BoxSpread<B>; 256],
    pub len: usize,
    ghost long: { length room ≡ 256 },
    ghost in_room: { len ≤ 256 },
}

// `none` is what a place past the room would have. Nothing reads one, so that the clauses hold whatever it is.
impl<B: Copy> Heap<B> {
    ghost use Rattle.heap.specs.Heap.{item, put_in, take_out};
    ghost use Rattle.heap.specs.Boxes.{by_spread};

    // A heap with no place in use, and what stands at all of them.
    pub fn new(x: BoxSpread<B>) -> Heap<B>
        ensures room { result.room ≡ replicate 256 x }
        ensures len { result.len ≡ 0 }
    {
        Heap {
            room: [x; 256],
            len: 0,
        }
    }

    // How many places are in use.
    pub fn len(&self) -> usize
        ensures { result ≡ self.now.len }
    {
        self.len
    }

    // All places, those that are not in use too.
    pub fn room(&self) -> &[BoxSpread<B>; 256]
        ensures room { result.now ≡ self.now.room }
        ensures long { length result.now ≡ 256 }
    {
        &self.room
    }

    // The box at place 0.
    pub fn top(&self) -> BoxSpread<B>
        ensures { (none : _) → result ≡ item none self.now.room 0 }
    {
        self.room[0]
    }

    // Puts a box in.
    pub fn put_in(&mut self, x: BoxSpread<B>)
        requires { self.old.len < 256 }
        ensures room { (none : _) → self.new.room ≡ put_in by_spread none self.old.room self.old.len x }
        ensures len { self.new.len ≡ self.old.len + 1 }
    {
        climb(&mut self.room, self.len, x);
        self.len += 1;
    }

    // Takes the top out, and answers it.
    pub fn take_out(&mut self) -> BoxSpread<B>
        requires { 0 < self.old.len }
        ensures top { (none : _) → result ≡ item none self.old.room 0 }
        ensures room { (none : _) → self.new.room ≡ take_out by_spread none self.old.room self.old.len }
        ensures len { self.new.len ≡ self.old.len - 1 }
    {
        let top = self.top();
        self.len -= 1;
        if self.len != 0 {
            let last = self.room[self.len];
            let hole = sink(&mut self.room, self.len);
            climb(&mut self.room, hole, last);
        }
        top
    }
}
