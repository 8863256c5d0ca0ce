// Depth-first search with a stack of its own. A node is white till it is discovered, gray while its edges are gone through, and black from then on.
#![tactic(auto)]

ghost use Rattle.std.specs.Prelude.{◌≡◌, ℕ, ◌<◌};
ghost use Rattle.graphs.specs.Lists.{below};
ghost use Rattle.graphs.specs.Walk.{cyclic};
ghost use Rattle.graph_neighbours.specs.Followed.{followed};
ghost use Rattle.graph_neighbours.specs.Lists.{deg, nb, edge};
ghost use Rattle.graph_colours.specs.Colours.{view, Starts, Ran};
ghost use Rattle.graph_depth_first.specs.Lent.{lists, SameLists};
ghost use Rattle.graph_depth_first.specs.Lists.{Long};
ghost use Rattle.graph_depth_first.specs.Steps.{CanDiscover, Discovered, CanFinish, Finished, CanVisit, Visited, Ready, Stepped, CanSearch, Searched, CanWalk, CanWalkIn, Walked};

use graph_colours::State;
use graph_neighbours::Neighbours;

// How far a search is: the stack's height, and how many nodes have finished.
// stays: Clone and Copy alone, for this type and DepthFirst: nobody compares or prints them, and more derives are no plainer. Progress goes beside the search, as two
// words by value: it is none of what a walk leaves. So does n beside the graph: lists may be longer than what the graph's nodes use.
#[derive(Clone, Copy)]
struct Progress {
    height: usize,
    finished: usize,
}

// A search in lists that are lent: each node's state, how many of its edges are gone through, the stack of the gray nodes, the nodes in the order in which they
// finished, and whether a gray neighbour was met.
// stays: `met` is a fact of its own, beside no value that it would tell to be there: an Option is no plainer.
#[derive(Drop)]
struct Searching<'l> {
    states: &'l mut [State],
    cursors: &'l mut [u32],
    stack: &'l mut [u32],
    order: &'l mut [u32],
    met: bool,
}

impl<'l> Searching<'l> {
    // The white node y turns gray and goes on the stack.
    fn discover(&mut self, progress: Progress, y: u32) -> Progress
        requires { CanDiscover (lists self.old) progress y }
        ensures moves { Discovered (lists self.old) progress y (lists self.new) result }
        ensures same { SameLists self.old self.new }
    {
        let i = y as usize;
        self.states[i] = self.states[i].next();
        self.stack[progress.height] = y;
        Progress {
            height: progress.height + 1,
            finished: progress.finished,
        }
    }

    // The gray node t, on top of the stack, turns black.
    fn finish(&mut self, progress: Progress, t: u32) -> Progress
        requires { CanFinish (lists self.old) progress t }
        ensures moves { Finished (lists self.old) progress t (lists self.new) result }
        ensures same { SameLists self.old self.new }
    {
        let i = t as usize;
        self.states[i] = self.states[i].next();
        self.order[progress.finished] = t;
        Progress {
            height: progress.height - 1,
            finished: progress.finished + 1,
        }
    }

    // The next neighbour y of t, by its state.
    fn visit(&mut self, progress: Progress, t: u32, y: u32) -> Progress
        requires { CanVisit (lists self.old) progress t y }
        ensures moves { Visited (lists self.old) progress t y (lists self.new) result }
        ensures same { SameLists self.old self.new }
    {
        match self.states[y as usize] {
            State::White => self.discover(progress, y),
            // it is on the stack, and a closed walk is met
            State::Gray => {
                self.cursors[t as usize] += 1;
                self.met = true;
                progress
            }
            // it is passed by
            State::Black => {
                self.cursors[t as usize] += 1;
                progress
            }
        }
    }

    // One step of the node on top of the stack.
    fn step(&mut self, graph: &Neighbours, n: usize, progress: Progress) -> Progress
        requires ready { Ready graph.now n (lists self.old) progress }
        requires some { 0 < progress.height }
        ensures moves { Stepped graph.now n (lists self.old) progress (lists self.new) result }
        ensures same { SameLists self.old self.new }
    {
        let t = self.stack[progress.height - 1];
        match graph.of(t as usize).get(self.cursors[t as usize] as usize) {
            Some(&y) => self.visit(progress, t, y),
            None => self.finish(progress, t),
        }
    }

    // The search from one node, if it is white.
    fn search(&mut self, graph: &Neighbours, n: usize, root: usize, from: Progress) -> Progress
        requires { CanSearch graph.now n root (lists self.old) from }
        ensures moves { Searched graph.now n root (lists self.old) (lists self.new) result }
        ensures long { Long (lists self.old) (lists self.new) }
        ensures same { SameLists self.old self.new }
    {
        if self.states[root] != State::White {
            return from;
        }
        let mut progress = self.discover(from, root as u32);
        // stays: the stack grows as it is gone through, so that no iterator is plainer.
        while 0 < progress.height {
            progress = self.step(graph, n, progress);
        }
        progress
    }
}

// The first walk, in lists that are lent: puts the nodes into post-order, and tells whether a gray neighbour was met.
pub fn first_walk(
    graph: &Neighbours,
    n: usize,
    states: &mut [State],
    cursors: &mut [u32],
    stack: &mut [u32],
    order: &mut [u32],
) -> bool
    requires { CanWalkIn graph.now.starts.now (followed graph.now) n states.old cursors.old stack.old order.old }
    ensures walked { Walked (edge graph.now.starts.now (followed graph.now) n) n order.new result }
    ensures ran { Ran n (deg graph.now.starts.now) (nb graph.now.starts.now (followed graph.now)) (view states.new cursors.new stack.new 0) }
{
    states[..n].fill(State::White);
    cursors[..n].fill(0);
    let mut searching = Searching {
        states,
        cursors,
        stack,
        order,
        met: false,
    };
    let mut progress = Progress {
        height: 0,
        finished: 0,
    };
    for root in 0..n {
        progress = searching.search(graph, n, root, progress);
    }
    searching.met
}

// Whether the graph has a cycle, by a search in lists that are lent.
pub fn has_cycle(
    graph: &Neighbours,
    n: usize,
    states: &mut [State],
    cursors: &mut [u32],
    stack: &mut [u32],
    order: &mut [u32],
) -> bool
    requires { CanWalkIn graph.now.starts.now (followed graph.now) n states.old cursors.old stack.old order.old }
    ensures { result ≡ cyclic (edge graph.now.starts.now (followed graph.now) n) (below n) }
{
    first_walk(graph, n, states, cursors, stack, order)
}

// A search over up to N nodes, with lists of its own, which it lends to each walk, and whether the last one met a gray neighbour.
// stays: `met` is a fact of its own, as in Searching.
#[derive(Clone, Copy)]
pub struct DepthFirst<const N: usize> {
    pub states: [State; N],
    pub cursors: [u32; N],
    pub stack: [u32; N],
    pub order: [u32; N],
    pub met: bool,
}

impl<const N: usize> DepthFirst<N> {
    // Every node is white, none of its edges gone through.
    pub fn new() -> DepthFirst<N>
        ensures { Starts N (view result.states result.cursors result.stack 0) }
    {
        DepthFirst {
            states: [State::White; N],
            cursors: [0; N],
            stack: [0; N],
            order: [0; N],
            met: false,
        }
    }

    // The first walk: puts the nodes into post-order, and tells whether a gray neighbour was met.
    pub fn first_walk(&mut self, graph: &Neighbours, n: usize) -> bool
        requires { CanWalk graph.now.starts.now (followed graph.now) n N }
        ensures walked { Walked (edge graph.now.starts.now (followed graph.now) n) n self.new.order result }
        ensures ran { Ran n (deg graph.now.starts.now) (nb graph.now.starts.now (followed graph.now)) (view self.new.states self.new.cursors self.new.stack 0) }
    {
        self.met = first_walk(
            graph,
            n,
            &mut self.states,
            &mut self.cursors,
            &mut self.stack,
            &mut self.order,
        );
        self.met
    }

    // Whether the graph has a cycle.
    pub fn has_cycle(&mut self, graph: &Neighbours, n: usize) -> bool
        requires { CanWalk graph.now.starts.now (followed graph.now) n N }
        ensures { result ≡ cyclic (edge graph.now.starts.now (followed graph.now) n) (below n) }
    {
        self.first_walk(graph, n)
    }
}
