// What the demands say, as theorems: no code.
#![tactic(auto)]
