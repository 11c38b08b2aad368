// Spread and score of boxes in f64, and the best position to cut a box.
#![tactic(auto)]

mod before;
pub mod both_sides;
mod by_bins;
mod by_moments;
pub mod low_side;
pub mod position;
pub mod search;
pub mod spread;
pub mod walk;
