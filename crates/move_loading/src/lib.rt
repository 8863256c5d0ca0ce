// Writes the area of a move graph that is loaded.
#![tactic(auto)]

mod flags;
mod graph;
mod local;
mod start;

pub use local::load;
