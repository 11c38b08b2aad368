// The call that widens a table.
#![tactic(auto)]

pub mod call;
