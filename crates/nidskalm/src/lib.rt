// The calls of both graphs and of the choice of a merge target, each with its reply of the C interface (crates/nidskalm_replies).
// A call is lent its load, sizes or lists as a struct; crates/nidskalm_c makes it of C's parameters and exports each call under its name.
#![tactic(auto)]

pub mod merges;
pub mod moves;
pub mod targets;
