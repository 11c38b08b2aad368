// One colour of a row of bytes.
ghost use Rattle.std.specs.Prelude.{◌≡◌, ◌+◌, ◌*◌, ◌<◌, length};
ghost use Rattle.pixels.specs.Colour.{colour_at};

// The three components of a colour.
#[derive(Clone, Copy, PartialEq, Eq)]
pub struct Rgb {
    pub c1: u8,
    pub c2: u8,
    pub c3: u8,
}

// Colour i of a row of bytes.
pub fn colour(bytes: &[u8], i: usize) -> Rgb
    requires { 3 * i + 2 < length bytes.now }
    ensures { result ≡ colour_at bytes.now i }
{
    let at = 3 * i;
    Rgb {
        c1: bytes[at],
        c2: bytes[at + 1],
        c3: bytes[at + 2],
    }
}
