// The bench cases as one table with its test, and choices of a merge target and rankings with theirs: no code.
#![tactic(auto)]
