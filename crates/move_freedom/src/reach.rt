// What a node reaches along slots.
// stays: the arrays have a fixed length, since memory is fixed and nothing is on the heap.
ghost use Rattle.std.specs.Prelude.{◌≡◌};
ghost use Rattle.graphs.specs.Slots.{slot_edge};
ghost use Rattle.graph_walks.specs.Marks.{marked};
ghost use Rattle.move_freedom.specs.Reach.{CanReach};

use graph_neighbours::{Direction, Neighbours, Slots};

// Marks with 1 the nodes, of n, that `root` reaches in one step or more along the slots.
// stays: n is how many nodes the slots' graph has, for which the slots are grouped; the marks have a place for each node there may be.
pub fn reach(slots: &Slots, n: usize, root: usize, marks: &mut [u32])
    requires { CanReach slots.now.sources.now slots.now.targets.now slots.now.count n root marks.old }
    ensures { marks.new ≡ marked (slot_edge slots.now.sources.now slots.now.targets.now slots.now.count) n 1 root marks.old }
{
    let mut heads = [0u32; 1026];
    let mut list = [0u32; 8448];
    let mut stack = [0u32; 1025];
    graph_neighbours::group(slots, n, &mut heads, &mut list);
    let graph = Neighbours {
        direction: Direction::Dependencies,
        starts: &heads,
        dependencies: &list,
        dependents: &list,
    };
    graph_walks::reach(&graph, n, 1, root, marks, &mut stack);
}
