// Grids: three sizes, each chosen by cases, the bins of a component and the places of bins.
#![tactic(auto)]

pub mod dimension;
pub mod place;
pub mod steps;
