// Boxes of a grid: where they begin and end, their sides, and their six bytes.
#![tactic(auto)]

pub mod bytes;
pub mod sides;
