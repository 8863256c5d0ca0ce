// The graph that a merge area holds after each write. Definitions and laws only.
#![tactic(auto)]
