// The lent arrays that the boxes of a cut and their spreads go into.
ghost use Rattle.std.specs.Prelude.{◌≡◌, ◌+◌, ◌*◌, ◌≤◌, ◌<◌, length};
ghost use Rattle.basics.specs.Refusal.{answer_of};
ghost use Rattle.cutter.specs.Cut.{done_record};
ghost use Rattle.cutter.specs.Fronts.{filled};
ghost use Rattle.seluvava.specs.Cut.{its_bytes, spread_of, told};
ghost use Rattle.seluvava.specs.Inner.{room_number, with_box_at};

use basics::refusal::Refusal;
use boxes::sides::Bounds;
use grid::place::grid_of;
use rounds::gather::Boxes;

// Whether the arrays for boxes and spreads are too short, or the sizes and k refused before them.
pub(crate) fn check_room(
    b1: usize,
    b2: usize,
    b3: usize,
    k: usize,
    boxes: usize,
    spreads: usize,
) -> Result<(), Refusal>
    ensures { answer_of result ≡ room_number b1 b2 b3 k boxes spreads }
{
    grid_of(b1, b2, b3).ok_or(Refusal::Grid)?;
    if k < 1 || 256 < k {
        return Err(Refusal::BoxCount);
    }
    if boxes < 6 * k || spreads < k {
        return Err(Refusal::Length);
    }
    Ok(())
}

// Writes the bounds of a box as the six bytes of place i.
fn put_box(boxes: &mut [u8], i: usize, x: Bounds)
    requires { 6 * i + 5 < length boxes.old }
    ensures { boxes.new ≡ with_box_at boxes.old i x }
{
    let at = 6 * i;
    boxes[at] = x.r0;
    boxes[at + 1] = x.r1;
    boxes[at + 2] = x.g0;
    boxes[at + 3] = x.g1;
    boxes[at + 4] = x.b0;
    boxes[at + 5] = x.b1;
}

// Writes the boxes of a cut and their spreads.
pub(crate) fn put_boxes(b: &Boxes, boxes: &mut [u8], spreads: &mut [f64])
    requires { (length b.now.places ≡ 256) × (b.now.boxes ≤ 256)
        × (6 * b.now.boxes ≤ length boxes.old) × (b.now.boxes ≤ length spreads.old) }
    ensures boxes { boxes.new ≡ filled 6 its_bytes (told (done_record b.now)) boxes.old }
    ensures spreads { spreads.new ≡ filled 1 spread_of (told (done_record b.now)) spreads.old }
{
    for i in 0..b.boxes {
        let x = b.places[i];
        put_box(boxes, i, x.bounds);
        spreads[i] = x.spread;
    }
}
