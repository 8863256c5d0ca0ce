// `ReducedChunkGraph`: trial moves of atoms between chunks, accepted exactly when no cycle arises.
#![tactic(auto)]

mod cycle;
mod load;
mod moves;
mod questions;
mod ranking;
mod sets;

pub use cycle::has_cycle;
pub use load::new;
pub use moves::try_move;
pub use questions::{atom_count, atom_set, chunk_count, edge_at, edge_count, multiplicity};
pub use ranking::rank;

// What `new` and `has_cycle` tell of the graph.
// stays: no From<bool>: each of the two says by an `if` what its truth value means, which a conversion would hide: no plainer.
#[derive(Clone, Copy, PartialEq, Eq, Debug)]
pub enum Verdict {
    Acyclic,
    Cyclic,
}
