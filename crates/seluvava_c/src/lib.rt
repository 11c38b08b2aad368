// The exports for C and Rust, and nothing else: each is one call of the function of its name in seluvava, under the same
// clauses. include/seluvava.h says the same to their callers.
#![tactic(auto)]

pub mod cut;
pub mod files;
pub mod frames;
pub mod narrow;
pub mod recordings;
pub mod sizes;
pub mod tables;
pub mod terminals;
pub mod version;
