// What there is to list of a table that was loaded.
ghost use Rattle.std.specs.Prelude.{◌≡◌, ◌≤◌, IfOk};
ghost use Rattle.lines.specs.Listing.{found_in, found_of};

use cutter::call::cut;
use sums::source::Source;
use table::layout::Wide;

// A cut by the program's grid: each of the first boxes has a colour and a count.
#[derive(Drop)]
pub struct Found {
    pub boxes: usize,
    pub rounds: usize,
    pub palette: [u8; 48],
    pub counts: [u32; 16],
}

// The cut of a table into at most k boxes, or the number of a refusal: the lowest of the loads, or else that of the cut,
// for whose palette there is room up to 16. The lowest is a number, as callers may hand in any.
pub fn cut_into(table: &[u64], lowest: u8, k: usize) -> Result<Found, u8>
    ensures is { result ≡ found_in k lowest table.now }
    ensures few { IfOk result (λ f. f.boxes ≤ k) }
{
    if lowest != 0 {
        return Err(lowest);
    }
    let mut work = [0; 2560];
    let mut palette = [0; 48];
    let mut counts = [0; 16];
    let mut remainders = [0; 48];
    let mut map = [0; 512];
    let cut = cut::<Wide>(
        Source::Moments,
        8,
        8,
        8,
        k,
        &[],
        table,
        &mut [],
        &mut work,
        &mut palette,
        &mut counts,
        &mut remainders,
        &mut map,
    );
    match cut {
        Ok(found) => Ok(Found {
            boxes: found.boxes,
            rounds: found.rounds,
            palette,
            counts,
        }),
        Err(refusal) => Err(refusal.number()),
    }
}

// The cut of a table by the program's k.
pub fn cut_loaded(table: &[u64], lowest: u8) -> Result<Found, u8>
    ensures is { result ≡ found_of lowest table.now }
    ensures few { IfOk result (λ f. f.boxes ≤ 16) }
{
    cut_into(table, lowest, 16)
}
