// The calls that fill a table: loading and merging.
#![tactic(auto)]

pub mod load;
pub mod merge;
