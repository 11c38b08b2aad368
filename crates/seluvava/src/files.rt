// Files: the header of a PPM, and its pixels loaded.
ghost use Rattle.std.specs.Prelude.{◌≡◌};
ghost use Rattle.ppm.specs.Load.{ppm_number, ppm_later};
ghost use Rattle.seluvava.specs.Files.{ppm_header};

use basics::refusal::answer;
use ppm::header::{Header, read_header};

// What the header of a PPM says: its answer, and the size of the image with the place of its first pixel, all 0 where
// it is refused.
#[repr(C)]
#[derive(Clone, Copy)]
pub struct PpmAnswer {
    pub number: u8,
    pub width: usize,
    pub height: usize,
    pub pixels: usize,
}

// What a refusal hands back.
fn refused(number: u8) -> PpmAnswer
    ensures { result ≡ record { number = number; width = 0; height = 0; pixels = 0 } }
{
    PpmAnswer {
        number,
        width: 0,
        height: 0,
        pixels: 0,
    }
}

// Reads the header of a PPM.
pub fn seluvava_ppm_header(file: &[u8]) -> PpmAnswer
    ensures { result ≡ ppm_header file.now }
{
    match read_header(file) {
        Header::Image(f) => PpmAnswer {
            number: 0,
            width: f.width,
            height: f.height,
            pixels: f.pixels,
        },
        Header::Maximum => refused(11),
        Header::Malformed => refused(10),
    }
}

// Adds the pixels of a PPM to a table.
pub fn seluvava_load_ppm(b1: usize, b2: usize, b3: usize, table: &mut [u64], file: &[u8]) -> u8
    ensures number { result ≡ ppm_number b1 b2 b3 table.old file.now }
    ensures later { table.new ≡ ppm_later b1 b2 b3 table.old file.now }
{
    answer(ppm::load::load_ppm(b1, b2, b3, table, file))
}
