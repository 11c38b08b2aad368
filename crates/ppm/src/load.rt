// Loading a PPM: the pixels from the middle of the file are handed on as a part of it.
ghost use Rattle.std.specs.Prelude.{◌≡◌, length};
ghost use Rattle.basics.specs.Refusal.{answer_of};
ghost use Rattle.ppm.specs.Load.{ppm_number, ppm_later};
ghost use Rattle.ppm.specs.Inner.{InFile, frame_number, frame_later};

use crate::header::{Frame, Header, read_header};
use basics::refusal::Refusal;
use loader::load::load;
use table::layout::Wide;

// Loads the pixels of an image whose header was read.
fn load_frame(
    b1: usize,
    b2: usize,
    b3: usize,
    table: &mut [u64],
    file: &[u8],
    f: Frame,
) -> Result<(), Refusal>
    requires { InFile (length file.now) f }
    ensures number { answer_of result ≡ frame_number b1 b2 b3 table.old file.now f }
    ensures later { table.new ≡ frame_later b1 b2 b3 table.old file.now f }
{
    let from = f.pixels;
    if file.len() - from != 3 * (f.width * f.height) {
        return Err(Refusal::PixelCount);
    }
    let mut none = [0u32; 0];
    load::<Wide>(b1, b2, b3, &mut none, table, &file[from..], None)
}

// Adds the pixels of a PPM to a table.
pub fn load_ppm(
    b1: usize,
    b2: usize,
    b3: usize,
    table: &mut [u64],
    file: &[u8],
) -> Result<(), Refusal>
    ensures number { answer_of result ≡ ppm_number b1 b2 b3 table.old file.now }
    ensures later { table.new ≡ ppm_later b1 b2 b3 table.old file.now }
{
    match read_header(file) {
        Header::Image(f) => load_frame(b1, b2, b3, table, file, f),
        Header::Maximum => Err(Refusal::Maximum),
        Header::Malformed => Err(Refusal::Header),
    }
}
