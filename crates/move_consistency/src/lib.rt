// Whether a move graph's area is consistent: row 9 of the table of refusals.
#![tactic(auto)]

mod ranges;
mod totals;
mod whole;
mod worked;

pub use whole::consistent;
