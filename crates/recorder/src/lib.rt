// Recording by intervals: a session with its interval in force, batches that say their own, and replays.
#![tactic(auto)]

pub mod batch;
mod entries;
pub mod replay;
pub mod session;
