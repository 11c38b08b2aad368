// A table whose numbers are all multiplied by a power of two, through the loop of a cut: theorems over the definitions,
// and no code.
#![tactic(auto)]
