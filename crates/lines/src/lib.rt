// What the listing program does between reading and writing: it loads its input batch by batch, and puts the text for
// what was loaded into a lent buffer.
#![tactic(auto)]

pub mod batches;
pub mod found;
pub mod listing;
pub mod text;
pub mod writer;
