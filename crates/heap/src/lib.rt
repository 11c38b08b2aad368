// The heap (Rules, Heap).
#![tactic(auto)]

mod carry;
pub mod heap;
