// The 240 fixed colours of a terminal, and the nearest of them to each colour of a palette.
#![tactic(auto)]

pub mod call;
mod closest;
mod fixed;
mod planes;

pub use call::nearest;
