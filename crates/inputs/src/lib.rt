// What the listing program decides of its input: what it looks like, and of a PPM where its pixels are and whether they
// are as many as its header says.
#![tactic(auto)]

pub mod frames;
pub mod looks;
