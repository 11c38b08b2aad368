// The lines of a cut, each behind its swatch.
ghost use Rattle.std.specs.Prelude.{◌≡◌, ◌+◌, ◌*◌, ◌≤◌, ◌<◌, length};
ghost use Rattle.lines.specs.Text.{with_text};
ghost use Rattle.lines.specs.Writing.{Writes, HasRoom};
ghost use Rattle.swatches.specs.Swatches.{swatch_of, swatch_line_at};
ghost use Rattle.swatches.specs.Inner.{swatch_room, swatch_line_room, RoomForSwatches, swatches_found};

use lines::found::Found;
use lines::listing::total;
use lines::writer::Writer;

// A block in the colour of a number, and back to the terminal's own colours.
fn swatch(text: &mut Writer<'_>, number: u8)
    requires { HasRoom text.old swatch_room }
    ensures { Writes text.old (swatch_of number) swatch_room text.new }
{
    text.named(b"\x1b[48;5;", u64::from(number));
    text.word(b"m  \x1b[0m ");
}

// The line of box i behind its swatch.
fn swatch_line(text: &mut Writer<'_>, i: usize, palette: &[u8], counts: &[u32], numbers: &[u8])
    requires room { HasRoom text.old swatch_line_room }
    requires there { (3 * i + 2 < length palette.now) × (i < length counts.now) × (i < length numbers.now) }
    ensures { Writes text.old (swatch_line_at palette.now counts.now numbers.now i) swatch_line_room
        text.new }
{
    swatch(text, numbers[i]);
    text.box_line(i, palette, counts);
}

// Puts the whole listing with swatches at the start of a buffer, and answers its length. A closure for what stands before
// a line would be longer than this loop beside that of `lines`.
pub(crate) fn swatch_lines(found: &Found, numbers: &[u8; 16], out: &mut [u8]) -> usize
    requires { RoomForSwatches found.now out.old }
    ensures ends { result ≡ length (swatches_found found.now numbers.now) }
    ensures later { out.new ≡ with_text (swatches_found found.now numbers.now) out.old }
    ensures fits { result ≤ length out.new }
{
    let mut text = Writer { out, at: 0 };
    let total = total(found.boxes, &found.counts);
    text.head(found.boxes as u64, total, found.rounds as u64);
    for i in 0..found.boxes {
        swatch_line(&mut text, i, &found.palette, &found.counts, numbers);
    }
    text.at
}
