// What a box sums to, by adding up its bins one after the other.
#![tactic(auto)]

pub mod add_up;
