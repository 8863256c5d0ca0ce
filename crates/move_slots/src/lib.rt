// From the node of each atom to the edge slots of the chunk graph; all over lent lists.
#![tactic(auto)]

mod fill;
mod fronts;
mod slots;
mod tiers;

pub use fill::{fill_own_slots, fill_slots, slot_count};
pub use fronts::facades;
pub use slots::{tally, write_slots};
pub use tiers::is_small;
