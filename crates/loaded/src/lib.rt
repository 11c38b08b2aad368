// Tables that were loaded from colours: what their boxes hold, and that their spreads are above 0 where two bins are
// occupied. Laws, and no code.
#![tactic(auto)]
