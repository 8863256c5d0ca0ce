// The move graph's ledger: definitions and laws only.
#![tactic(auto)]
