// Replaying a recorded list: its entries one after the other, each with its answer.
ghost use Rattle.std.specs.Prelude.{◌≡◌, true, ◌++◌, length, drop};
ghost use Rattle.basics.specs.Refusal.{answer_of};
ghost use Rattle.table.specs.Sound.{limit};
ghost use Rattle.adder.specs.Add.{Known, Whole};
ghost use Rattle.recorder.specs.Replay.{entries_fit, entries_in, entries_of};
ghost use Rattle.recorder.specs.Replay.{recorded, replay_answer, replay_table, replay_bytes};
ghost use Rattle.recorder.specs.Inner.{stand, entry, number_on, later_on, stands_on, answers_on, told};

use crate::batch::in_force;
use crate::entries::entries_fit;
use crate::session::{Session, SessionAnswer, in_range};
use adder::add::add_batch;
use adder::steps::Steps;
use basics::refusal::{Refusal, answer};
use grid::place::grid_of;
use table::layout::Wide;
use table::sound::sound_total;
use table::wide::table_len;

// One entry, with the colours and weights that belong to it: it changes the session, or adds to the table and its
// total. Its kind is a number, as the list is the C interface's.
#[tactic(auto, using(crate::proofs::Steps::entry_ends))]
fn one_entry(
    steps: &Steps,
    table: &mut [u64],
    total: &mut u64,
    session: &mut Session,
    kind: u32,
    interval: u32,
    colours: &[u8],
    weights: &[u32],
) -> Result<(), Refusal>
    requires known { Known limit steps.now.g table.old total.old }
    requires whole { Whole colours.now true weights.now }
    ensures number { answer_of result
        ≡ number_on steps.now.g (stand session.old table.old)
        (entry kind interval colours.now weights.now) }
    ensures later { stand session.new table.new
        ≡ later_on steps.now.g (stand session.old table.old)
        (entry kind interval colours.now weights.now) }
    ensures known { Known limit steps.now.g table.new total.new }
{
    if kind == 0 {
        in_range(interval)?;
        session.interval = interval;
        return Ok(());
    }
    in_force(*session, interval)?;
    let mut none = [0u32; 0];
    let scale = u64::from(interval);
    *total = add_batch::<Wide>(
        steps,
        &mut none,
        table,
        *total,
        colours,
        Some(weights),
        scale,
    )
    .ok_or(Refusal::TooHeavy)?;
    Ok(())
}

// All entries, one after the other. The colours and weights of each begin where those of the entry before it end,
// refused or not.
fn all_entries(
    steps: &Steps,
    table: &mut [u64],
    had: u64,
    s: Session,
    entries: &[u32],
    colours: &[u8],
    weights: &[u32],
    answers: &mut [u8],
) -> Session
    requires known { Known limit steps.now.g table.old had }
    requires fit { entries_fit entries.now (length colours.now) (length weights.now) (length answers.old)
        ≡ true }
    ensures stands { stand result table.new
        ≡ stands_on steps.now.g (stand s table.old)
        (entries_of entries.now colours.now weights.now) }
    ensures answers { answers.new
        ≡ answers_on steps.now.g (stand s table.old)
        (entries_of entries.now colours.now weights.now)
        ++ drop (entries_in entries.now) answers.old }
{
    let mut session = s;
    let mut total = had;
    let mut at = 0;
    for i in 0..entries.len() / 3 {
        let e = 3 * i;
        let end = at + entries[e + 2] as usize;
        let from = 3 * at;
        let to = 3 * end;
        let done = one_entry(
            steps,
            table,
            &mut total,
            &mut session,
            entries[e],
            entries[e + 1],
            &colours[from..to],
            &weights[at..end],
        );
        answers[i] = answer(done);
        at = end;
    }
    session
}

// Replays a recorded list into a table that is tested once, with a step table that is filled once: the session then, or
// why nothing is replayed.
fn replayed(
    first: u32,
    b1: usize,
    b2: usize,
    b3: usize,
    table: &mut [u64],
    entries: &[u32],
    colours: &[u8],
    weights: &[u32],
    answers: &mut [u8],
) -> Result<Session, Refusal>
    ensures answer { told result
        ≡ replay_answer first b1 b2 b3 table.old
        (recorded entries.now colours.now weights.now answers.old) }
    ensures table { table.new
        ≡ replay_table first b1 b2 b3 table.old
        (recorded entries.now colours.now weights.now answers.old) }
    ensures answers { answers.new
        ≡ replay_bytes first b1 b2 b3 table.old
        (recorded entries.now colours.now weights.now answers.old) }
{
    in_range(first)?;
    let g = grid_of(b1, b2, b3).ok_or(Refusal::Grid)?;
    if table.len() != table_len(g)
        || !entries_fit(entries, colours.len(), weights.len(), answers.len())
    {
        return Err(Refusal::Length);
    }
    let had = sound_total::<Wide>(&[], table, g).ok_or(Refusal::Unsound)?;
    let steps = Steps::of(g);
    let s = Session { interval: first };
    Ok(all_entries(&steps, table, had, s, entries, colours, weights, answers))
}

// Replays a recorded list. A refusal hands back its number and interval 0.
pub fn replay(
    first: u32,
    b1: usize,
    b2: usize,
    b3: usize,
    table: &mut [u64],
    entries: &[u32],
    colours: &[u8],
    weights: &[u32],
    answers: &mut [u8],
) -> SessionAnswer
    ensures answer { result
        ≡ replay_answer first b1 b2 b3 table.old
        (recorded entries.now colours.now weights.now answers.old) }
    ensures table { table.new
        ≡ replay_table first b1 b2 b3 table.old
        (recorded entries.now colours.now weights.now answers.old) }
    ensures answers { answers.new
        ≡ replay_bytes first b1 b2 b3 table.old
        (recorded entries.now colours.now weights.now answers.old) }
{
    match replayed(first, b1, b2, b3, table, entries, colours, weights, answers) {
        Ok(session) => SessionAnswer { number: 0, session },
        Err(refusal) => SessionAnswer {
            number: refusal.number(),
            session: Session { interval: 0 },
        },
    }
}
