// A batch of colours, or a cell, added to a table that is known to be sound.
#![tactic(auto)]

pub mod add;
mod blocks;
pub mod shares;
pub mod steps;
mod weights;
