// A box as one number, of six bytes. No crate here packs a box: the law `box_pack` and the edits of both keep these.
ghost use Rattle.std.specs.Prelude.{◌≡◌};
ghost use Rattle.boxes.specs.Bytes.{pack_of, box_of};

use crate::sides::Bounds;

// The number of a box: its six bytes, the first of them lowest.
pub fn packed(x: Bounds) -> u64
    ensures { result ≡ pack_of x }
{
    u64::from_le_bytes([x.r0, x.r1, x.g0, x.g1, x.b0, x.b1, 0, 0])
}

// The box of a number.
pub fn unpacked(n: u64) -> Bounds
    ensures { result ≡ box_of n }
{
    let bytes = n.to_le_bytes();
    Bounds {
        r0: bytes[0],
        r1: bytes[1],
        g0: bytes[2],
        g1: bytes[3],
        b0: bytes[4],
        b1: bytes[5],
    }
}
