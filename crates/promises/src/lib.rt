// The promises of the calls: theorems over the definitions that their contracts cite, and no code.
#![tactic(auto)]
