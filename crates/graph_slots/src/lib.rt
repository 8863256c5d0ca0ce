// Walks over the graph of the slots, each with lists of its own. Slot k is the edge from sources[k] to targets[k], if they differ. The slots are
// grouped by source: `heads` has where each node's part of `list` starts.
#![tactic(auto)]

ghost use Rattle.std.specs.Prelude.{◌≡◌, ℕ, ◌≤◌};
ghost use Rattle.graphs.specs.Lists.{below};
ghost use Rattle.graphs.specs.Slots.{slot_edge};
ghost use Rattle.graphs.specs.Walk.{cyclic};
ghost use Rattle.graph_neighbours.specs.Followed.{followed};
ghost use Rattle.graph_neighbours.specs.Lists.{edge, Graph};
ghost use Rattle.graph_walks.specs.Marks.{marked};
ghost use Rattle.graph_components.specs.Only.{flagged};
ghost use Rattle.graph_slots.specs.Asked.{CanMark, CanFlagFrom, CanFlagSlots};

use graph_depth_first::DepthFirst;
use graph_neighbours::{Direction, Neighbours, Slots};

// So many nodes at most. A graph of up to SMALL_NODES is walked with short lists, which are sooner cleared.
const NODES: usize = 1024;

const SMALL_NODES: usize = 128;

// Room for the heads of so many nodes, and for so many slots.
const HEADS: usize = 1025;

const SLOTS: usize = 8448;

// stays: n is how many nodes the graph has, in all functions here. Heads, list, marks and flags may each be longer, and to cut them at each call is no plainer.
// Heads, list and n come one by one: each caller has written the lists just before and writes them again, so that a graph is lent for one call: no plainer.
// stays: memory is fixed, nothing is on the heap.

// Whether there is a cycle, with lists for N nodes.
fn has_cycle_within<const N: usize>(graph: &Neighbours, n: usize) -> bool
    requires { Graph graph.now.starts.now (followed graph.now) n × (n ≤ N) × (N ≤ 1024) }
    ensures { result ≡ cyclic (edge graph.now.starts.now (followed graph.now) n) (below n) }
{
    DepthFirst::<N>::new().has_cycle(graph, n)
}

// Whether there is a cycle.
pub fn has_cycle(heads: &[u32], list: &[u32], n: usize) -> bool
    requires { Graph heads.now list.now n × (n ≤ 1024) }
    ensures { result ≡ cyclic (edge heads.now list.now n) (below n) }
{
    let graph = Neighbours {
        direction: Direction::Dependencies,
        starts: heads,
        dependencies: list,
        dependents: list,
    };
    if n <= SMALL_NODES {
        has_cycle_within::<SMALL_NODES>(&graph, n)
    } else {
        has_cycle_within::<NODES>(&graph, n)
    }
}

// Marks the nodes that `root` reaches in one step or more.
pub fn reach(heads: &[u32], list: &[u32], n: usize, mark: u32, root: usize, marks: &mut [u32])
    requires { CanMark heads.now list.now n mark root marks.old }
    ensures { marks.new ≡ marked (edge heads.now list.now n) n mark root marks.old }
{
    let graph = Neighbours {
        direction: Direction::Dependencies,
        starts: heads,
        dependencies: list,
        dependents: list,
    };
    let mut stack = [0u32; NODES];
    graph_walks::reach(&graph, n, mark, root, marks, &mut stack);
}

// Flags the nodes of the only component with a closed walk. `order` is the post-order of a first walk, `label` and `stack` are scratch.
fn flag_component(
    slots: &Slots,
    n: usize,
    graph: &Neighbours,
    order: &[u32],
    label: &mut [u32],
    stack: &mut [u32],
    flags: &mut [u32],
)
    requires { CanFlagFrom slots.now.sources.now slots.now.targets.now slots.now.count n graph.now.starts.now (followed graph.now) order.now label.old stack.old flags.old }
    ensures { flags.new ≡ flagged (slot_edge slots.now.sources.now slots.now.targets.now slots.now.count) n flags.old }
{
    let turned = Slots {
        sources: slots.targets,
        targets: slots.sources,
        count: slots.count,
    };
    let mut starts = [0u32; HEADS];
    let mut list = [0u32; SLOTS];
    graph_neighbours::group(&turned, n, &mut starts, &mut list);
    let back = Neighbours {
        direction: Direction::Dependents,
        starts: &starts,
        dependencies: &list,
        dependents: &list,
    };
    graph_components::only_cyclic_component(graph, &back, n, order, label, stack, flags);
}

// One search tells whether there is a cycle, and puts the nodes into the order in which the component is found; with lists for N nodes.
fn search_within<const N: usize>(
    slots: &Slots,
    n: usize,
    graph: &Neighbours,
    flags: &mut [u32],
) -> bool
    requires { CanFlagSlots slots.now.sources.now slots.now.targets.now slots.now.count n graph.now.starts.now (followed graph.now) flags.old × (n ≤ N) × (N ≤ 1024) }
    ensures value { result ≡ cyclic (slot_edge slots.now.sources.now slots.now.targets.now slots.now.count) (below n) }
    ensures flags_after { flags.new ≡ flagged (slot_edge slots.now.sources.now slots.now.targets.now slots.now.count) n flags.old }
{
    let mut search = DepthFirst::<N>::new();
    if search.first_walk(graph, n) {
        flag_component(
            slots,
            n,
            graph,
            &search.order,
            &mut search.cursors,
            &mut search.stack,
            flags,
        );
        return true;
    }
    flags[..n].fill(0);
    false
}

// Whether there is a cycle, and the flags of the only component with a closed walk: none where there are two such components, or none.
pub fn cyclic_component(
    slots: &Slots,
    n: usize,
    heads: &[u32],
    list: &[u32],
    flags: &mut [u32],
) -> bool
    requires { CanFlagSlots slots.now.sources.now slots.now.targets.now slots.now.count n heads.now list.now flags.old }
    ensures value { result ≡ cyclic (slot_edge slots.now.sources.now slots.now.targets.now slots.now.count) (below n) }
    ensures flags_after { flags.new ≡ flagged (slot_edge slots.now.sources.now slots.now.targets.now slots.now.count) n flags.old }
{
    let graph = Neighbours {
        direction: Direction::Dependencies,
        starts: heads,
        dependencies: list,
        dependents: list,
    };
    if n <= SMALL_NODES {
        search_within::<SMALL_NODES>(slots, n, &graph, flags)
    } else {
        search_within::<NODES>(slots, n, &graph, flags)
    }
}
