// The chunks that an entry bit wants: those whose set holds it, and all they reach.
// stays: memory is fixed, nothing is on the heap.
ghost use Rattle.std.specs.Prelude.{◌+◌, ◌<◌};
ghost use Rattle.move_load_view.specs.View.{lent_by};
ghost use Rattle.start_order.specs.Bits.{picks};
ghost use Rattle.start_order.specs.Roots.{Roots, Blank};
ghost use Rattle.start_order.specs.Walked.{CanMark, MarkRoom};
ghost use Rattle.start_order.specs.Marked.{Marked};

use crate::nodes::Nodes;
use graph_neighbours::{Direction, Neighbours, Slots};
use move_load_view::Load;

// The mark of a wanted node.
pub const WANTED: u32 = 1;

// The nodes that start are marked and put on the stack: the stack's height.
fn roots(nodes: &Nodes, bit: usize, marks: &mut [u32], stack: &mut [u32]) -> usize
    requires { (bit < 256) × Blank nodes.now.area.n marks.old stack.old }
    ensures { Roots (picks nodes.now.area.numbers.now nodes.now.area.n bit) nodes.now.area.n nodes.now.registered marks.new stack.new result }
{
    let mut height = 0;
    for x in 0..nodes.registered {
        if nodes.is_root(bit, x) {
            height = graph_walks::look(marks, stack, WANTED, height, x as u32);
        }
    }
    height
}

// Marks the nodes whose chunks are wanted; before, all marks are 0. There is room for so many nodes, their heads and so many slots; `stack` has
// the atom counts first.
fn mark_within<const NODES: usize, const HEADS: usize, const SLOTS: usize>(
    load: &Load,
    nodes: &Nodes,
    bit: usize,
    marks: &mut [u32],
)
    requires can { CanMark (lent_by load.now) nodes.now bit marks.old }
    requires room { MarkRoom nodes.now.area.n (load.now.entries + load.now.bits) NODES HEADS SLOTS }
    ensures { Marked (lent_by load.now) nodes.now.area.n nodes.now.area.numbers.now nodes.now.registered bit marks.new }
{
    let n = nodes.area.n;
    let mut stack = [0u32; NODES];
    let mut sources = [0u32; SLOTS];
    let mut targets = [0u32; SLOTS];
    move_slots::fill_own_slots(load, &nodes.area, &mut stack, &mut sources, &mut targets);
    let slots = Slots {
        sources: &sources,
        targets: &targets,
        count: load.entries + load.bits,
    };
    let mut heads = [0u32; HEADS];
    let mut list = [0u32; SLOTS];
    graph_neighbours::group(&slots, n, &mut heads, &mut list);
    let height = roots(nodes, bit, marks, &mut stack);
    let graph = Neighbours {
        direction: Direction::Dependencies,
        starts: &heads,
        dependencies: &list,
        dependents: &list,
    };
    graph_walks::spread(&graph, n, WANTED, marks, &mut stack, height);
}

// Marks the nodes whose chunks are wanted; before, all marks are 0.
pub(crate) fn mark(load: &Load, nodes: &Nodes, bit: usize, marks: &mut [u32])
    requires { CanMark (lent_by load.now) nodes.now bit marks.old }
    ensures { Marked (lent_by load.now) nodes.now.area.n nodes.now.area.numbers.now nodes.now.registered bit marks.new }
{
    if move_slots::is_small(load, nodes.area.n) {
        mark_within::<128, 129, 1024>(load, nodes, bit, marks);
    } else {
        mark_within::<1024, 1025, 8448>(load, nodes, bit, marks);
    }
}
