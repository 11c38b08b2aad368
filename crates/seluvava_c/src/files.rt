// Files: the header of a PPM, and its pixels loaded.
ghost use Rattle.std.specs.Prelude.{◌≡◌};
ghost use Rattle.ppm.specs.Load.{ppm_number, ppm_later};
ghost use Rattle.seluvava.specs.Files.{ppm_header};

use seluvava::files::PpmAnswer;

// Reads the header of a PPM.
#[unsafe(no_mangle)]
pub extern "C" fn seluvava_ppm_header(file: &[u8]) -> PpmAnswer
    ensures { result ≡ ppm_header file.now }
{
    seluvava::files::seluvava_ppm_header(file)
}

// Adds the pixels of a PPM to a table.
#[unsafe(no_mangle)]
pub extern "C" fn seluvava_load_ppm(
    b1: usize,
    b2: usize,
    b3: usize,
    table: &mut [u64],
    file: &[u8],
) -> u8
    ensures number { result ≡ ppm_number b1 b2 b3 table.old file.now }
    ensures later { table.new ≡ ppm_later b1 b2 b3 table.old file.now }
{
    seluvava::files::seluvava_load_ppm(b1, b2, b3, table, file)
}
