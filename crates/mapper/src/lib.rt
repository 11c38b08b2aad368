// Mapping a band of a frame.
#![tactic(auto)]

mod blocks;
pub mod call;

pub use call::map;
