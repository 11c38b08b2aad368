// The entries of a recorded list, and whether what is lent fits them.
ghost use Rattle.std.specs.Prelude.{◌≡◌, ◌+◌, ◌*◌, ◌<◌, length};
ghost use Rattle.recorder.specs.Replay.{is_entry, entries_fit};

// Whether entry i is a reload without colours or a batch. The list is the C interface's, so its kinds are numbers.
fn is_entry(entries: &[u32], i: usize) -> bool
    requires { 3 * i + 2 < length entries.now }
    ensures { result ≡ is_entry entries.now i }
{
    match entries[3 * i] {
        0 => entries[3 * i + 2] == 0,
        1 => true,
        _ => false,
    }
}

// Whether entries are in threes and each of them one, with exactly as many colour bytes and weights as they say, and
// an answer byte for each. All numbers of colours can add up to more than a u64 holds, so each is taken from what is
// left.
pub(crate) fn entries_fit(entries: &[u32], colours: usize, weights: usize, answers: usize) -> bool
    ensures { result ≡ entries_fit entries.now colours weights answers }
{
    let n = entries.len() / 3;
    if entries.len() % 3 != 0 || colours % 3 != 0 || colours / 3 != weights || answers < n {
        return false;
    }
    let mut left = weights;
    for i in 0..n {
        if !is_entry(entries, i) {
            return false;
        }
        let count = entries[3 * i + 2] as usize;
        if left < count {
            return false;
        }
        left -= count;
    }
    left == 0
}
