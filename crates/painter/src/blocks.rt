// A part of a frame painted from packed colours, 64 pixels at a time and then the rest.
ghost use Rattle.std.specs.Prelude.{◌≡◌, ◌+◌, ◌*◌, ◌%◌, ◌≤◌, ◌<◌, length};
ghost use Rattle.basics.specs.Range.{list_from};
ghost use Rattle.band.specs.Band.{write_band};
ghost use Rattle.painter.specs.Inner.{fill_at, packed_at, painted_for};

use crate::brush::Brush;
use pixels::equal::equal_colours;

// Writes a packed colour as pixel i of a row of bytes.
fn put_packed(bytes: &mut [u8], i: usize, v: u32)
    requires { 3 * i + 2 < length bytes.old }
    ensures { bytes.new ≡ write_band (3 * i) 3 (fill_at v) bytes.old }
{
    let at = 3 * i;
    bytes[at] = (v % 256) as u8;
    bytes[at + 1] = (v / 256 % 256) as u8;
    bytes[at + 2] = (v / 65536 % 256) as u8;
}

// Writes a packed colour as some pixels, one after the other.
fn fill_some(bytes: &mut [u8], first: usize, pixels: usize, v: u32)
    requires { 3 * (first + pixels) ≤ length bytes.old }
    ensures { bytes.new ≡ write_band (3 * first) (3 * pixels) (fill_at v) bytes.old }
{
    for k in 0..pixels {
        put_packed(bytes, first + k, v);
    }
}

// Writes a packed colour as 64 pixels: as 16 of them, and then each byte as it stands 48 bytes before, which the
// machine copies many at a time.
fn fill_pixels(bytes: &mut [u8], first: usize, v: u32)
    requires { 3 * (first + 64) ≤ length bytes.old }
    ensures { bytes.new ≡ write_band (3 * first) (3 * 64) (fill_at v) bytes.old }
{
    fill_some(bytes, first, 16, v);
    let at = 3 * first;
    for k in 0..144 {
        bytes[at + 48 + k] = bytes[at + k];
    }
}

// Paints some pixels of a part, one after the other.
fn paint_some(brush: &Brush<'_>, part: &mut [u8], first: usize, pixels: usize)
    requires { 3 * (first + pixels) ≤ length part.old }
    ensures { part.new
        ≡ painted_for brush.now.look_up.g brush.now.look_up.map.now brush.now.packed part.old first pixels }
{
    for k in 0..pixels {
        let i = first + k;
        let v = brush.painted(part, i);
        put_packed(part, i, v);
    }
}

// Paints 64 pixels of a part, looked up once where they are of one colour with the pixel after them.
fn paint_block(brush: &Brush<'_>, part: &mut [u8], first: usize)
    requires { 3 * (first + 65) ≤ length part.old }
    ensures { part.new
        ≡ painted_for brush.now.look_up.g brush.now.look_up.map.now brush.now.packed part.old first 64 }
{
    if equal_colours(part, first) {
        let v = brush.painted(part, first);
        fill_pixels(part, first, v);
    } else {
        paint_some(brush, part, first, 64);
    }
}

// The packed colour at each pixel's index, in the place of a part of a frame: blocks of 64 with a pixel after them,
// then the rest.
pub(crate) fn paint_part(brush: &Brush<'_>, part: &mut [u8])
    requires { length part.old % 3 ≡ 0 }
    ensures { part.new
        ≡ list_from 0 (length part.old)
        (packed_at brush.now.look_up.g brush.now.look_up.map.now brush.now.packed part.old) }
{
    let n = part.len() / 3;
    let blocks = n.saturating_sub(1) / 64;
    for block in 0..blocks {
        paint_block(brush, part, 64 * block);
    }
    let rest = 64 * blocks;
    paint_some(brush, part, rest, n - rest);
}
