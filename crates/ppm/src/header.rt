// The header of a PPM: how large its image is, and where the pixels start.
ghost use Rattle.std.specs.Prelude.{◌≡◌, ◌≤◌, length, drop};
ghost use Rattle.ppm.specs.Header.{is_magic, is_side, image_of, header_of};

use crate::fields::{field, is_blank};

// An image: its width and height in pixels, and the place of its first pixel's byte in the file.
#[derive(Clone, Copy)]
pub struct Frame {
    pub width: usize,
    pub height: usize,
    pub pixels: usize,
}

// What the header of a file says.
#[derive(Clone, Copy)]
pub enum Header {
    Image(Frame),
    Maximum,
    Malformed,
}

fn is_magic(file: &[u8]) -> bool
    ensures { result ≡ is_magic file.now }
{
    2 <= file.len() && file[0] == b'P' && file[1] == b'6'
}

#[tactic(auto, unfolding(crate::specs::Header::is_side))]
fn is_side(n: usize) -> bool
    ensures { result ≡ is_side n }
{
    1 <= n && n <= 65535
}

// What three numbers say, the last of which ends at a place.
fn image(file: &[u8], width: usize, height: usize, maximum: usize, end: usize) -> Header
    requires { end ≤ length file.now }
    ensures { result
        ≡ image_of (length file.now) width height maximum (drop end file.now) }
{
    if file.len() <= end || !is_blank(file[end]) || !is_side(width) || !is_side(height) {
        return Header::Malformed;
    }
    if maximum != 255 {
        return Header::Maximum;
    }
    Header::Image(Frame {
        width,
        height,
        pixels: end + 1,
    })
}

// Reads the header of a file.
pub fn read_header(file: &[u8]) -> Header
    ensures { result ≡ header_of file.now }
{
    if !is_magic(file) {
        return Header::Malformed;
    }
    let Some(width) = field(file, 2) else {
        return Header::Malformed;
    };
    let Some(height) = field(file, width.end) else {
        return Header::Malformed;
    };
    let Some(maximum) = field(file, height.end) else {
        return Header::Malformed;
    };
    image(file, width.value, height.value, maximum.value, maximum.end)
}
