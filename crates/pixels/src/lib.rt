// Colours in a row of bytes, three a colour.
#![tactic(auto)]

pub mod colour;
pub mod equal;
