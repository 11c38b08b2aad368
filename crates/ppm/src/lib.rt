// Reading PPM frames: the header of a file, and its pixels loaded from its middle.
#![tactic(auto)]

mod fields;
pub mod header;
pub mod load;
