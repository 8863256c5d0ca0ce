// Step 3's test: whether the graph of the moved placement has a cycle.
// stays: a writer has N and the list itself, as move_fixed says; `n` is the lanes' distance there, not a list's length.
ghost use Rattle.std.specs.Prelude.{◌≡◌};
ghost use Rattle.graphs.specs.Lists.{below};
ghost use Rattle.graphs.specs.Walk.{via};
ghost use Rattle.graphs.specs.Slots.{slot_edge};
ghost use Rattle.graph_neighbours.specs.Lists.{edge};
ghost use Rattle.graph_slots.specs.Asked.{ListRoom, SlotLists};
ghost use Rattle.move_try.specs.Test.{CanMarkLane, CanTest, walk_area, tested, closes};

use super::writes::raise;
use graph_neighbours::Slots;

// The nodes that `to` reaches in one step or more have the counter as their mark.
fn mark(area: &mut [u32], n: usize, counter: u32, to: usize, heads: &[u32], list: &[u32])
    requires { CanMarkLane area.old n counter to heads.now list.now }
    ensures { area.new ≡ walk_area (edge heads.now list.now n) n counter to area.old }
{
    let at = n * n + 24 + 9 * n;
    graph_slots::reach(heads, list, n, counter, to, &mut area[at..at + n]);
}

// Whether `to` reaches itself in the graph of the slots, which are grouped by source.
fn reaches_itself(
    area: &mut [u32],
    n: usize,
    counter: u32,
    to: usize,
    heads: &[u32],
    list: &[u32],
) -> bool
    requires { CanMarkLane area.old n counter to heads.now list.now }
    ensures value { result ≡ via (edge heads.now list.now n) (below n) to to }
    ensures area_after { area.new ≡ walk_area (edge heads.now list.now n) n counter to area.old }
{
    mark(area, n, counter, to, heads, list);
    area[n * n + 24 + 9 * n + to] == counter
}

// Whether the moved graph has a cycle. Where the graph had none before, a new one passes `to`; else every old one may have gone, and all nodes are
// searched. The slots are grouped in `heads` and `list`.
pub fn closes_cycle(
    area: &mut [u32],
    n: usize,
    to: usize,
    slots: &Slots,
    heads: &mut [u32],
    list: &mut [u32],
) -> bool
    requires { CanTest area.old n to slots.now.sources.now slots.now.targets.now slots.now.count × ListRoom slots.now.count n heads.old list.old }
    ensures value { result ≡ closes (slot_edge slots.now.sources.now slots.now.targets.now slots.now.count) n to area.old }
    ensures area_after { area.new ≡ tested (slot_edge slots.now.sources.now slots.now.targets.now slots.now.count) n to area.old }
    ensures slot_lists { SlotLists slots.now.sources.now slots.now.targets.now slots.now.count n heads.new list.new }
{
    graph_neighbours::group(slots, n, heads, list);
    if area[n * n + 2] == 0 {
        return graph_slots::has_cycle(heads, list, n);
    }
    let counter = raise(area, n);
    reaches_itself(area, n, counter, to, heads, list)
}
