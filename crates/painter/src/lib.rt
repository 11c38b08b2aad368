// Painting a band of a frame.
#![tactic(auto)]

mod blocks;
mod brush;
pub mod call;
mod palette;

pub use call::paint;
