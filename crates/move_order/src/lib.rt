// The start order for a desk: definitions and theorems only.
#![tactic(auto)]
