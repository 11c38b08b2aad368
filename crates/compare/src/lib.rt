// The call that compares two tables.
#![tactic(auto)]

mod bins;
pub mod call;
