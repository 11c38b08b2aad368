// The program's whole text, for what was loaded.
ghost use Rattle.std.specs.Prelude.{◌≡◌, ◌≤◌, length};
ghost use Rattle.lines.specs.Text.{with_text};
ghost use Rattle.lines.specs.Listing.{text_of, text_room};

use crate::found::cut_loaded;
use crate::listing::{listing, refused};

// Puts the program's whole text at the start of a buffer, and answers its length. The lowest refusal is a number, as
// callers may hand in any.
pub fn text(table: &[u64], lowest: u8, out: &mut [u8]) -> usize
    requires { text_room ≤ length out.old }
    ensures ends { result ≡ length (text_of lowest table.now) }
    ensures later { out.new ≡ with_text (text_of lowest table.now) out.old }
    ensures fits { result ≤ length out.new }
{
    match cut_loaded(table, lowest) {
        Ok(found) => listing(&found, out),
        Err(number) => refused(number, out),
    }
}
