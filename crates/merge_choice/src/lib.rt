// The choice of a merge target: definitions and theorems only.
#![tactic(auto)]
