// The call cut: boxes, palette, counts and map; and the filled front of a palette.
#![tactic(auto)]

pub mod call;
mod map;
mod number;
pub mod palette;
mod results;
