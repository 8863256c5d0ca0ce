// Whether sets are distinct: they are laid out in lanes, n apart, and sorted; then equal ones are neighbours.
#![tactic(auto)]

ghost use Rattle.std.specs.Prelude.{ℕ, ◌<◌};
ghost use Rattle.graphs.specs.Bools.{Decides};
ghost use Rattle.set_order.specs.Order.{Distinct};
ghost use Rattle.equal_sets.specs.Laid.{nth_set, row_set, Gives, Room, Scratch, CanTell, CanTellRow};

use entry_set::EntrySet;
use set_order::Lanes;

// The sets that `set` gives for the numbers below a are distinct.
fn sets_are_distinct<F: Fn(usize) -> EntrySet>(
    set: F,
    a: usize,
    n: usize,
    lanes: &mut [u32],
    order: &mut [u32],
    scratch: &mut [u32],
) -> bool
    requires room { Room a n lanes.old }
    requires sorted { Scratch a n order.old scratch.old }
    requires callable { (i : ℕ) → i < a → F.pre set i }
    ensures { (key : ℕ → ℕ) → Gives key a (F.post set) → Decides (Distinct key a) result }
{
    for i in 0..a {
        set(i).write_lanes(lanes, i, n);
    }
    let laid = Lanes {
        area: lanes,
        at: 0,
        n,
    };
    laid.sort(a, order, scratch);
    laid.distinct(a, order)
}

// stays: lanes, order and scratch come one by one: they are local arrays of each caller, as long as it needs. A struct that lends the three
// would be made for each call and taken apart at once: no plainer. A list of sets has its w and a beside it, as C lends it: a set of no entry bits has no number
// there, so that its length doesn't say how many sets it holds.

// The first a sets of a list are distinct.
pub fn are_distinct(
    sets: &[u64],
    w: usize,
    a: usize,
    n: usize,
    lanes: &mut [u32],
    order: &mut [u32],
    scratch: &mut [u32],
) -> bool
    requires { CanTell sets.now w a n lanes.old order.old scratch.old }
    ensures { Decides (Distinct (nth_set sets.now w) a) result }
{
    sets_are_distinct(|i| EntrySet::at(sets, w, i), a, n, lanes, order, scratch)
}

// The a sets of which the words stand in a row from `at` on are distinct.
pub fn row_is_distinct(
    area: &[u32],
    at: usize,
    a: usize,
    n: usize,
    lanes: &mut [u32],
    order: &mut [u32],
    scratch: &mut [u32],
) -> bool
    requires { CanTellRow area.now at a n lanes.old order.old scratch.old }
    ensures { Decides (Distinct (row_set area.now at) a) result }
{
    sets_are_distinct(
        |i| EntrySet::read_lanes(area, at + 8 * i, 1),
        a,
        n,
        lanes,
        order,
        scratch,
    )
}
