// The indices of a part of a frame, 64 pixels at a time and then the rest.
ghost use Rattle.std.specs.Prelude.{◌≡◌, ◌+◌, ◌*◌, ◌≤◌, length};
ghost use Rattle.basics.specs.Range.{list_from};
ghost use Rattle.band.specs.Band.{index_at, write_band};

use band::LookUp;
use pixels::equal::equal_colours;

// The indices of some pixels of a part, one after the other.
fn map_some(look_up: &LookUp<'_>, part: &[u8], indices: &mut [u8], from: usize, count: usize)
    requires { (3 * (from + count) ≤ length part.now) × (from + count ≤ length indices.old) }
    ensures { indices.new
        ≡ write_band from count (index_at look_up.now.g look_up.now.map.now part.now) indices.old }
{
    for k in 0..count {
        let i = from + k;
        indices[i] = look_up.index_at(part, i);
    }
}

// The indices of four pixels, all read before any is written.
fn map_four(look_up: &LookUp<'_>, part: &[u8], indices: &mut [u8], i: usize)
    requires { (3 * (i + 4) ≤ length part.now) × (i + 4 ≤ length indices.old) }
    ensures { indices.new
        ≡ write_band i 4 (index_at look_up.now.g look_up.now.map.now part.now) indices.old }
{
    let a = look_up.index_at(part, i);
    let b = look_up.index_at(part, i + 1);
    let c = look_up.index_at(part, i + 2);
    let d = look_up.index_at(part, i + 3);
    indices[i] = a;
    indices[i + 1] = b;
    indices[i + 2] = c;
    indices[i + 3] = d;
}

// The indices of 64 pixels, four at a time.
fn map_by_fours(look_up: &LookUp<'_>, part: &[u8], indices: &mut [u8], from: usize)
    requires { (3 * (from + 64) ≤ length part.now) × (from + 64 ≤ length indices.old) }
    ensures { indices.new
        ≡ write_band from 64 (index_at look_up.now.g look_up.now.map.now part.now) indices.old }
{
    for k in 0..16 {
        map_four(look_up, part, indices, from + 4 * k);
    }
}

// The indices of 64 pixels, looked up once where they are of one colour with the pixel after them.
fn map_block(look_up: &LookUp<'_>, part: &[u8], indices: &mut [u8], from: usize)
    requires { (3 * (from + 65) ≤ length part.now) × (from + 64 ≤ length indices.old) }
    ensures { indices.new
        ≡ write_band from 64 (index_at look_up.now.g look_up.now.map.now part.now) indices.old }
{
    if equal_colours(part, from) {
        let index = look_up.index_at(part, from);
        indices[from..from + 64].fill(index);
    } else {
        map_by_fours(look_up, part, indices, from);
    }
}

// The index of each pixel of a part of a frame, into the same part of the index buffer: blocks of 64 with a pixel after
// them, then the rest.
pub(crate) fn map_part(look_up: &LookUp<'_>, part: &[u8], indices: &mut [u8])
    requires { length part.now ≡ 3 * length indices.old }
    ensures { indices.new
        ≡ list_from 0 (length indices.old) (index_at look_up.now.g look_up.now.map.now part.now) }
{
    let n = indices.len();
    let blocks = n.saturating_sub(1) / 64;
    for block in 0..blocks {
        map_block(look_up, part, indices, 64 * block);
    }
    let rest = 64 * blocks;
    map_some(look_up, part, indices, rest, n - rest);
}
