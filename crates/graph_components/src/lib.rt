// The components of a graph by two walks (Kosaraju-Sharir), and the only one with a closed walk.
#![tactic(auto)]

ghost use Rattle.std.specs.Prelude.{◌≡◌, ℕ, ◌+◌, ◌<◌, get_or};
ghost use Rattle.graph_neighbours.specs.Followed.{followed};
ghost use Rattle.graph_neighbours.specs.Lists.{edge};
ghost use Rattle.graph_depth_first.specs.Steps.{at};
ghost use Rattle.graph_components.specs.Components.{turn, CanGather, Gathered, Parting, CanWalkBack, Split};
ghost use Rattle.graph_components.specs.Only.{flagged, meet_of, Met, Inner, CanMeet, CanFlag, Flagged, CanFlagOnly};

use graph_neighbours::Neighbours;

// stays: n is how many nodes the graph has, in all functions here. Heads, order, labels, stack and flags may each be longer, and to cut them at each call is no
// plainer; nor is a struct of the graph and n, which graph_slots would make anew for each call, of lists that it has just grouped.

// Gives the label l to the nodes that reach `root` over nodes with no label.
// stays: 0 stands for no label. The labels are the marks of the walk, which are numbers: Options would be turned into numbers and back for each walk, no plainer.
fn gather(graph: &Neighbours, n: usize, label: &mut [u32], stack: &mut [u32], root: u32, l: u32)
    requires { CanGather graph.now.starts.now (followed graph.now) n label.old stack.old root l }
    ensures { Gathered (turn (edge graph.now.starts.now (followed graph.now) n)) n root l (at label.old) (at label.new) }
{
    let height = graph_walks::look(label, stack, l, 0, root);
    graph_walks::spread(graph, n, l, label, stack, height);
}

// The component of the node at place k of the post-order, if it has no label.
fn part(graph: &Neighbours, n: usize, order: &[u32], label: &mut [u32], stack: &mut [u32], k: usize)
    requires { Parting graph.now.starts.now (followed graph.now) n order.now label.old stack.old (k + 1) × (k < n) × (get_or order.now k 0 < n) }
    ensures { Parting graph.now.starts.now (followed graph.now) n order.now label.new stack.new k }
{
    let root = order[k];
    if label[root as usize] == 0 {
        gather(graph, n, label, stack, root, k as u32 + 1);
    }
}

// The second walk, over dependents in reverse post-order: two nodes get one label where each reaches the other.
fn second_walk(turned: &Neighbours, n: usize, order: &[u32], label: &mut [u32], stack: &mut [u32])
    requires { CanWalkBack turned.now.starts.now (followed turned.now) n order.now label.old stack.old }
    ensures { Split (turn (edge turned.now.starts.now (followed turned.now) n)) n (at label.new) }
{
    label[..n].fill(0);
    for k in (0..n).rev() {
        part(turned, n, order, label, stack, k);
    }
}

// The labels of the edges within components.
#[derive(Clone, Copy, PartialEq, Eq, Debug)]
enum Found {
    Nothing,
    Only(u32),
    Several,
}

// An edge from label a to label b is met.
fn meet(found: Found, a: u32, b: u32) -> Found
    ensures { result ≡ meet_of found a b }
{
    if a != b {
        return found;
    }
    match found {
        Found::Nothing => Found::Only(a),
        Found::Only(label) if label == a => found,
        _ => Found::Several,
    }
}

// The edges of x.
fn inner(graph: &Neighbours, n: usize, label: &[u32], x: usize, found: Found) -> Found
    requires { CanMeet graph.now.starts.now (followed graph.now) n label.now × (x < n) × Met (Inner graph.now.starts.now (followed graph.now) n (at label.now) x 0) found }
    ensures { Met (Inner graph.now.starts.now (followed graph.now) n (at label.now) (x + 1) 0) result }
{
    let mut found = found;
    for &y in graph.of(x) {
        found = meet(found, label[x], label[y as usize]);
    }
    found
}

// All edges.
fn within(graph: &Neighbours, n: usize, label: &[u32]) -> Found
    requires { CanMeet graph.now.starts.now (followed graph.now) n label.now }
    ensures { Met (Inner graph.now.starts.now (followed graph.now) n (at label.now) n 0) result }
{
    let mut found = Found::Nothing;
    for x in 0..n {
        found = inner(graph, n, label, x, found);
    }
    found
}

// The flags of the nodes with the only label, if there is one.
fn flag_all(label: &[u32], n: usize, found: Found, flags: &mut [u32])
    requires { CanFlag label.now n flags.old }
    ensures { Flagged label.now found flags.old n flags.new }
{
    for x in 0..n {
        flags[x] = u32::from(found == Found::Only(label[x]));
    }
}

// Flags the nodes of the only component with a closed walk; none where there are two such components. `turned` is the graph with each edge turned round;
// `order` has the nodes in the post-order of a first walk; `label` and `stack` are scratch.
pub fn only_cyclic_component(
    graph: &Neighbours,
    turned: &Neighbours,
    n: usize,
    order: &[u32],
    label: &mut [u32],
    stack: &mut [u32],
    flags: &mut [u32],
)
    requires { CanFlagOnly graph.now.starts.now (followed graph.now) turned.now.starts.now (followed turned.now) n order.now label.old stack.old flags.old }
    ensures { flags.new ≡ flagged (edge graph.now.starts.now (followed graph.now) n) n flags.old }
{
    second_walk(turned, n, order, label, stack);
    let found = within(graph, n, label);
    flag_all(label, n, found, flags);
}
