// The call that rescues a damaged table.
#![tactic(auto)]

mod bins;
pub mod call;
