// How free a plan is: of each atom and each occupied set other than its own, whether a move is accepted, rejected or refused as the atom is fixed.
// Two walks decide all sets of an atom.
#![tactic(auto)]

mod aside;
mod atoms;
mod flags;
mod reach;
mod rest;
mod steps;
mod walks;

pub use atoms::how_free;

// The three counts.
#[derive(Clone, Copy, PartialEq, Eq, Debug)]
pub struct Counts {
    pub accepted: u64,
    pub rejected: u64,
    pub fixed: u64,
}
