// Moments of a table, and the sums of boxes, from them or from the bins.
#![tactic(auto)]

pub mod box_sums;
mod edge_rows;
mod inner_rows;
mod join;
pub mod moments;
mod moments_box;
pub mod source;
