// The loop of a cut: the top of the heap is taken out and cut in two, until there are k boxes.
#![tactic(auto)]

pub mod gather;
mod rounds;
