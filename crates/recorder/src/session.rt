// A session: the interval in force, and nothing else.
ghost use Rattle.std.specs.Prelude.{◌≡◌};
ghost use Rattle.basics.specs.Refusal.{answer_of};
ghost use Rattle.recorder.specs.Session.{interval_number, begun, reloaded};

use basics::refusal::Refusal;

// The interval in force; 0 is under which every batch is refused.
#[repr(C)]
#[derive(Clone, Copy)]
pub struct Session {
    pub interval: u32,
}

// What beginning, reloading and replaying hand back: the answer, and the session then. The C interface has this
// record, so the answer is a number in it.
#[repr(C)]
#[derive(Clone, Copy)]
pub struct SessionAnswer {
    pub number: u8,
    pub session: Session,
}

// Refuses an interval that is out of range.
pub(crate) fn in_range(interval: u32) -> Result<(), Refusal>
    ensures { answer_of result ≡ interval_number interval }
{
    if interval < 1 || 4096 < interval {
        return Err(Refusal::Interval);
    }
    Ok(())
}

// Changes the interval in force.
pub fn reload(s: Session, interval: u32) -> SessionAnswer
    ensures { result ≡ reloaded s interval }
{
    match in_range(interval) {
        Ok(()) => SessionAnswer {
            number: 0,
            session: Session { interval },
        },
        Err(refusal) => SessionAnswer {
            number: refusal.number(),
            session: s,
        },
    }
}

// Begins a session.
pub fn begin(interval: u32) -> SessionAnswer
    ensures { result ≡ begun interval }
{
    reload(Session { interval: 0 }, interval)
}
