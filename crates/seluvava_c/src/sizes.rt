// How many bins a grid has, which a map has in bytes.
ghost use Rattle.std.specs.Prelude.{◌≡◌};
ghost use Rattle.seluvava.specs.Sizes.{bins_for};

// The bins of a grid, or 0 where it is refused.
#[unsafe(no_mangle)]
pub extern "C" fn seluvava_bins(b1: usize, b2: usize, b3: usize) -> usize
    ensures { result ≡ bins_for b1 b2 b3 }
{
    seluvava::sizes::seluvava_bins(b1, b2, b3)
}
