// Whether many colours of a row of bytes are equal, so that a loop over pixels can take them at once.
ghost use Rattle.std.specs.Prelude.{◌≡◌, ◌+◌, ◌*◌, ◌<◌, length};
ghost use Rattle.basics.specs.Range.{sum_from};
ghost use Rattle.pixels.specs.Equal.{equal_colours, differs};

use crate::colour::colour;

// How many of 192 bytes differ from the byte three after. All are compared, whatever the first give, so that the
// machine can compare many at once.
#[tactic(auto, using(basics::proofs::Range::sum_last, crate::proofs::EqualColours::alike, crate::proofs::EqualColours::unlike))]
fn differences(bytes: &[u8], at: usize) -> u8
    requires { at + 194 < length bytes.now }
    ensures { result ≡ sum_from at 192 (differs bytes.now) }
{
    let mut count = 0u8;
    for k in 0..192 {
        if bytes[at + k] != bytes[at + k + 3] {
            count += 1;
        }
    }
    count
}

// Whether the 65 colours from colour i on are equal. The two ends settle most pictures.
pub fn equal_colours(bytes: &[u8], i: usize) -> bool
    requires { 3 * i + 194 < length bytes.now }
    ensures { result ≡ equal_colours bytes.now i }
{
    colour(bytes, i + 64) == colour(bytes, i) && differences(bytes, 3 * i) == 0
}
