// The listing of a cut, and the line of a refusal.
ghost use Rattle.std.specs.Prelude.{◌≡◌, ◌≤◌, length, sum};
ghost use Rattle.lines.specs.Text.{total_of, refused_of, with_text, line_room};
ghost use Rattle.lines.specs.Inner.{RoomForLines, listing_found};

use crate::found::Found;
use crate::writer::Writer;

fn sum(counts: &[u32]) -> u64
    requires { length counts.now ≤ 256 }
    ensures { result ≡ sum counts.now }
{
    counts.iter().map(|count| u64::from(*count)).sum()
}

// The weight of the first boxes together.
pub fn total(boxes: usize, counts: &[u32]) -> u64
    requires { (boxes ≤ 256) × (boxes ≤ length counts.now) }
    ensures { result ≡ total_of counts.now boxes }
{
    sum(&counts[..boxes])
}

// Puts the whole listing at the start of a buffer, and answers its length.
pub(crate) fn listing(found: &Found, out: &mut [u8]) -> usize
    requires { RoomForLines found.now out.old }
    ensures ends { result ≡ length (listing_found found.now) }
    ensures later { out.new ≡ with_text (listing_found found.now) out.old }
    ensures fits { result ≤ length out.new }
{
    let mut text = Writer { out, at: 0 };
    let total = total(found.boxes, &found.counts);
    text.head(found.boxes as u64, total, found.rounds as u64);
    for i in 0..found.boxes {
        text.box_line(i, &found.palette, &found.counts);
    }
    text.at
}

// Puts the line of a refusal at the start of a buffer, and answers its length. It takes any number, as it is written.
pub fn refused(refusal: u8, out: &mut [u8]) -> usize
    requires { line_room ≤ length out.old }
    ensures ends { result ≡ length (refused_of refusal) }
    ensures later { out.new ≡ with_text (refused_of refusal) out.old }
    ensures fits { result ≤ length out.new }
{
    let mut line = Writer { out, at: 0 };
    line.named(b"refused ", u64::from(refusal));
    line.byte(b'\n');
    line.at
}
