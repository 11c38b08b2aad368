// The calls for C and Rust, which seluvava_c exports; include/seluvava.h says the same to their callers.
#![tactic(auto)]

mod arrays;
pub mod cut;
pub mod files;
pub mod frames;
pub mod narrow;
pub mod recordings;
pub mod sizes;
pub mod tables;
pub mod terminals;
pub mod version;
