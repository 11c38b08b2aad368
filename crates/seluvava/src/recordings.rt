// Recordings: sessions, batches that say their interval, and replays.
ghost use Rattle.std.specs.Prelude.{◌≡◌};
ghost use Rattle.recorder.specs.Session.{begun, reloaded};
ghost use Rattle.recorder.specs.Batch.{batch_number, batch_later};
ghost use Rattle.recorder.specs.Replay.{recorded, replay_answer, replay_table, replay_bytes};

use basics::refusal::answer;
use recorder::batch::batch;
use recorder::session::{Session, SessionAnswer};

// Begins a session.
pub fn seluvava_begin(interval: u32) -> SessionAnswer
    ensures { result ≡ begun interval }
{
    recorder::session::begin(interval)
}

// Changes the interval in force.
pub fn seluvava_reload(session: Session, interval: u32) -> SessionAnswer
    ensures { result ≡ reloaded session interval }
{
    recorder::session::reload(session, interval)
}

// Adds a batch of colours to a table, each weight multiplied by its interval.
pub fn seluvava_batch(
    session: Session,
    interval: u32,
    b1: usize,
    b2: usize,
    b3: usize,
    table: &mut [u64],
    colours: &[u8],
    weighted: bool,
    weights: &[u32],
) -> u8
    ensures number { result
        ≡ batch_number session interval b1 b2 b3 table.old colours.now weighted
        weights.now }
    ensures later { table.new
        ≡ batch_later session interval b1 b2 b3 table.old colours.now weighted
        weights.now }
{
    let weights = if weighted { Some(weights) } else { None };
    answer(batch(session, interval, b1, b2, b3, table, colours, weights))
}

// Replays a recorded list into a table.
pub fn seluvava_replay(
    first: u32,
    b1: usize,
    b2: usize,
    b3: usize,
    table: &mut [u64],
    entries: &[u32],
    colours: &[u8],
    weights: &[u32],
    answers: &mut [u8],
) -> SessionAnswer
    ensures answer { result
        ≡ replay_answer first b1 b2 b3 table.old
        (recorded entries.now colours.now weights.now answers.old) }
    ensures table { table.new
        ≡ replay_table first b1 b2 b3 table.old
        (recorded entries.now colours.now weights.now answers.old) }
    ensures answers { answers.new
        ≡ replay_bytes first b1 b2 b3 table.old
        (recorded entries.now colours.now weights.now answers.old) }
{
    recorder::replay::replay(first, b1, b2, b3, table, entries, colours, weights, answers)
}
