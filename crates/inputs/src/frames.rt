// A PPM that comes in batches.
ghost use Rattle.std.specs.Prelude.{◌≡◌, ◌-◌, ◌≤◌, length};
ghost use Rattle.inputs.specs.Frames.{moved_up, frame_answer, Read};

use basics::refusal::Refusal;
use ppm::header::Header;

// Moves the filled bytes from a place on to the front of a buffer, and answers how many they are.
pub fn to_front(space: &mut [u8], from: usize, filled: usize) -> usize
    requires { (from ≤ filled) × (filled ≤ length space.old) }
    ensures number { result ≡ filled - from }
    ensures later { space.new ≡ moved_up from filled space.old }
{
    space.copy_within(from..filled, 0);
    filled - from
}

// The answer to a PPM by its header, by how many bytes followed it, and by the lowest refusal of their loads.
// This is a number, as callers may hand in any.
pub fn frame_number(header: Header, bytes: u64, lowest: u8) -> u8
    requires { Read header }
    ensures { result ≡ frame_answer header bytes lowest }
{
    match header {
        Header::Image(f) => {
            let pixels = (f.width * f.height) as u64;
            if bytes == 3 * pixels {
                lowest
            } else {
                Refusal::PixelCount.number()
            }
        }
        Header::Maximum => Refusal::Maximum.number(),
        Header::Malformed => Refusal::Header.number(),
    }
}
