// Tables: five numbers per bin, where a lent table has them in either layout, and soundness.
#![tactic(auto)]

pub mod cell;
pub mod layout;
mod narrow;
mod rows;
pub mod sound;
pub mod spans;
pub mod wide;
