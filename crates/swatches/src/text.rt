// The whole text with swatches, for what was loaded.
ghost use Rattle.std.specs.Prelude.{◌≡◌, ◌≤◌, length};
ghost use Rattle.lines.specs.Text.{with_text};
ghost use Rattle.swatches.specs.Swatches.{swatch_text, swatch_text_room};

use crate::listing::swatch_lines;
use lines::found::cut_loaded;
use lines::listing::refused;
use terminal::call::nearest;

// Puts the whole text with swatches at the start of a buffer, and answers its length. The lowest refusal is a number, as
// callers may hand in any.
pub fn swatch_text(table: &[u64], lowest: u8, out: &mut [u8]) -> usize
    requires { swatch_text_room ≤ length out.old }
    ensures ends { result ≡ length (swatch_text lowest table.now) }
    ensures later { out.new ≡ with_text (swatch_text lowest table.now) out.old }
    ensures fits { result ≤ length out.new }
{
    match cut_loaded(table, lowest) {
        Ok(found) => {
            let mut numbers = [0; 16];
            // A palette of 16 entries and as many numbers are never refused.
            let _ = nearest(&found.palette, &mut numbers);
            swatch_lines(&found, &numbers, out)
        }
        Err(number) => refused(number, out),
    }
}
