// What every crate uses and none owns: ranges and sums over them, refusals and answers, how a call ends, what it is
// that a contract determines its results, and how floats compare.
#![tactic(auto)]

pub mod refusal;
