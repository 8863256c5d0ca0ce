// Walks that mark what they reach: over neighbour lists, and over rows of flags.
#![tactic(auto)]

pub mod end_rows; // end_rows.rt: over rows of flags whose nodes stand for their ends

ghost use Rattle.std.specs.Prelude.{◌≡◌, ◌<◌, ◌≢◌, not, eqb};
ghost use Rattle.graph_neighbours.specs.Followed.{followed};
ghost use Rattle.graph_neighbours.specs.Lists.{edge, Graph};
ghost use Rattle.graph_walks.specs.Closed.{flag_edge, closed};
ghost use Rattle.graph_walks.specs.Marks.{marking, marked};
ghost use Rattle.graph_walks.specs.Reads.{Reads, in_lists, in_rows, Offered, LookedTo, Walked};
ghost use Rattle.graph_walks.specs.Spread.{Ready, CanLook, Looked, LookedWhere, CanSpread, CanReach, Rows, Unmarked};

use graph_neighbours::Neighbours;

// Edges between the nodes below a number, as a walk reads them: at each node it looks at so many places, and where a place holds, a neighbour stands there.
trait Edges {
    ghost reads: { Self → Reads };

    // Looks at all neighbours of t: the stack's height.
    fn scan(
        &self,
        mark: u32,
        marks: &mut [u32],
        stack: &mut [u32],
        height: usize,
        t: usize,
    ) -> usize
        requires ready { Ready (reads self.now).nodes mark marks.old stack.old height }
        requires node { t < (reads self.now).nodes }
        ensures { LookedTo (reads self.now) mark marks.old stack.old height t ((reads self.now).places t) marks.new stack.new result };
}

// y is marked and goes on the stack, unless it is marked: the stack's height.
pub fn look(marks: &mut [u32], stack: &mut [u32], mark: u32, sp: usize, y: u32) -> usize
    requires { CanLook marks.old stack.old mark sp y }
    ensures { Looked marks.old stack.old mark sp y marks.new stack.new result }
{
    let i = y as usize;
    if mark <= marks[i] {
        return sp;
    }
    marks[i] = mark;
    stack[sp] = y;
    sp + 1
}

// stays: mark, marks and stack are passed one by one. Callers lend marks that they keep, a part of an area or an array, and `look` is called with either; a
// struct of two `&mut` would be made and taken apart at each call: no plainer. The stack's height goes from call to call as a word, and its end isn't the list's.

// Looks at y where `looked` says so.
fn look_where(
    looked: bool,
    marks: &mut [u32],
    stack: &mut [u32],
    mark: u32,
    sp: usize,
    y: u32,
) -> usize
    requires { CanLook marks.old stack.old mark sp y }
    ensures { LookedWhere looked marks.old stack.old mark sp y marks.new stack.new result }
{
    if looked {
        look(marks, stack, mark, sp, y)
    } else {
        sp
    }
}

// Marks what the nodes on the stack reach over nodes that are not marked.
fn spread_over<E: Edges>(edges: &E, mark: u32, marks: &mut [u32], stack: &mut [u32], height: usize)
    requires offers { Offered (E.reads edges.now) }
    requires ready { Ready (E.reads edges.now).nodes mark marks.old stack.old height }
    ensures { Walked (E.reads edges.now) mark marks.old stack.old height marks.new stack.new 0 }
{
    let mut sp = height;
    // stays: the stack grows as it is gone through, so that no iterator is plainer.
    while 0 < sp {
        let top = sp - 1;
        let t = stack[top] as usize;
        sp = edges.scan(mark, marks, stack, top, t);
    }
}

// Marks the union of the edges of source and target, closed under dependency.
fn close_over<E: Edges>(
    edges: &E,
    source: usize,
    target: usize,
    mark: u32,
    marks: &mut [u32],
    stack: &mut [u32],
)
    requires offers { Offered (E.reads edges.now) }
    requires ends { (source < (E.reads edges.now).nodes) × (target < (E.reads edges.now).nodes) }
    requires unmarked { Unmarked (E.reads edges.now).nodes mark marks.old stack.old }
    ensures { marks.new ≡ marking (closed (E.reads edges.now).joined (E.reads edges.now).nodes source target) mark marks.old }
{
    let first = edges.scan(mark, marks, stack, 0, source);
    let both = edges.scan(mark, marks, stack, first, target);
    spread_over(edges, mark, marks, stack, both);
}

// The first `count` nodes of a graph of neighbour lists.
// stays: Clone and Copy alone, for this type and the next. They are lists that are lent, which nobody compares or prints: more derives are no plainer.
#[derive(Clone, Copy)]
struct Listed<'g> {
    graph: &'g Neighbours<'g>,
    count: usize,
    ghost whole: { Graph graph.now.starts.now (followed graph.now) count },
}

impl<'g> Edges for Listed<'g> {
    ghost reads = { λ l. in_lists l.graph.now.starts.now (followed l.graph.now) l.count };

    fn scan(
        &self,
        mark: u32,
        marks: &mut [u32],
        stack: &mut [u32],
        height: usize,
        t: usize,
    ) -> usize {
        let mut sp = height;
        for &y in self.graph.of(t) {
            sp = look(marks, stack, mark, sp, y);
        }
        sp
    }
}

// stays: n, in the two functions below, is how many nodes the graph has. Heads, marks and stack may each be longer, and to cut the three of them at each call
// is no plainer. `Listed` is made of the two here: its fact is what a walk asks, and who calls has lists alone.

// Marks what the nodes on the stack reach over nodes that are not marked.
pub fn spread(
    graph: &Neighbours,
    n: usize,
    mark: u32,
    marks: &mut [u32],
    stack: &mut [u32],
    height: usize,
)
    requires { CanSpread graph.now.starts.now (followed graph.now) n mark marks.old stack.old height }
    ensures { Walked (in_lists graph.now.starts.now (followed graph.now) n) mark marks.old stack.old height marks.new stack.new 0 }
{
    spread_over(&Listed { graph, count: n }, mark, marks, stack, height);
}

// Marks the nodes that `root` reaches in one step or more.
pub fn reach(
    graph: &Neighbours,
    n: usize,
    mark: u32,
    root: usize,
    marks: &mut [u32],
    stack: &mut [u32],
)
    requires { CanReach graph.now.starts.now (followed graph.now) n mark root marks.old stack.old }
    ensures { marks.new ≡ marked (edge graph.now.starts.now (followed graph.now) n) n mark root marks.old }
{
    let listed = Listed { graph, count: n };
    let height = listed.scan(mark, marks, stack, 0, root);
    spread_over(&listed, mark, marks, stack, height);
}

// An edge of x to y is a flag that isn't 0, in row x and column y: rows of `stride` flags, of which the first `count` rows and columns are nodes.
#[derive(Clone, Copy)]
pub struct FlagRows<'f> {
    pub flags: &'f [u32],
    pub stride: usize,
    pub count: usize,
    ghost lent: { Rows flags.now stride count },
}

impl<'f> Edges for FlagRows<'f> {
    ghost reads = { λ r. in_rows r.flags.now r.stride r.count };

    fn scan(
        &self,
        mark: u32,
        marks: &mut [u32],
        stack: &mut [u32],
        height: usize,
        t: usize,
    ) -> usize {
        let flags = self.flags;
        let from = t * self.stride;
        let mut sp = height;
        // y is a u32 from the start: a cast at each flag makes a walk a third slower
        for y in 0..self.count as u32 {
            let is_set = flags[from + y as usize] != 0;
            sp = look_where(is_set, marks, stack, mark, sp, y);
        }
        sp
    }
}

// Marks the union of the rows of source and target, closed under dependency.
pub fn closure(
    rows: &FlagRows,
    source: usize,
    target: usize,
    mark: u32,
    marks: &mut [u32],
    stack: &mut [u32],
)
    requires ends { (source < rows.now.count) × (target < rows.now.count) }
    requires unmarked { Unmarked rows.now.count mark marks.old stack.old }
    ensures { marks.new ≡ marking (closed (flag_edge rows.now.flags.now rows.now.stride rows.now.count) rows.now.count source target) mark marks.old }
{
    close_over(rows, source, target, mark, marks, stack);
}
