// The turns in which the wanted chunks are listed: in each the first by rising sets of those whose edges all lead to listed ones.
ghost use Rattle.std.specs.Prelude.{◌≡◌, ℕ, ◌<◌, length, false, MatchOption};
ghost use Rattle.move_ledger.specs.Graph.{at};
ghost use Rattle.start_order.specs.Turns.{Setting, is_ready};
ghost use Rattle.start_order.specs.Steps.{CanSeek, Sought, CanPass, Passed, CanTake, Taken, CanList, Told};

use crate::nodes::Nodes;
use crate::wanted::WANTED;

// stays: order, marks and degrees come one by one: each is written by other steps than the others, and a struct of three `&mut` would be made and taken apart at
// each call: no plainer.

// The mark of a wanted node that is listed.
// stays: the walk to the wanted nodes leaves its marks as numbers, and the turns go on in its list; a list of an enum beside it would be no plainer.
const LISTED: u32 = 2;

// Whether node x is to be listed still, and has no edge left.
fn ready(marks: &[u32], degrees: &[u32], x: usize) -> bool
    requires { (x < length marks.now) × (x < length degrees.now) }
    ensures { result ≡ is_ready marks.now degrees.now x }
{
    marks[x] == WANTED && degrees[x] == 0
}

// The place in the order of the first node that can be listed, if there is one.
fn seek(order: &[u32], marks: &[u32], degrees: &[u32]) -> Option<usize>
    requires { CanSeek order.now marks.now degrees.now }
    ensures { MatchOption result ((j : ℕ) → j < length order.now → is_ready marks.now degrees.now (at order.now j) ≡ false) (Sought order.now marks.now degrees.now) }
{
    order
        .iter()
        .position(|&x| ready(marks, degrees, x as usize))
}

// Each node with an edge to z has one edge less to go.
fn pass(nodes: &Nodes, z: usize, degrees: &mut [u32])
    requires { CanPass nodes.now z degrees.old }
    ensures { Passed nodes.now.area.numbers.now nodes.now.area.n nodes.now.registered z degrees.old degrees.new }
{
    for y in 0..nodes.registered {
        degrees[y] -= u32::from(nodes.has_edge(y, z));
    }
}

// Lists node z at place k by its lowest atom.
// stays: k is a place of `chunks`, not a list's length.
fn take(
    nodes: &Nodes,
    z: usize,
    k: usize,
    low: &[u32],
    marks: &mut [u32],
    degrees: &mut [u32],
    chunks: &mut [u32],
)
    requires { CanTake nodes.now z k low.now marks.old degrees.old chunks.old }
    ensures { Taken nodes.now z k low.now marks.old degrees.old chunks.old marks.new degrees.new chunks.new }
{
    chunks[k] = low[z];
    marks[z] = LISTED;
    pass(nodes, z, degrees);
}

// Lists them all, and tells how many there are: at most a. `order` has the nodes by rising sets, `low` their lowest atoms; `degrees` has how many of
// a node's edges don't lead to listed ones.
pub(crate) fn list(
    nodes: &Nodes,
    a: usize,
    order: &[u32],
    low: &[u32],
    marks: &mut [u32],
    degrees: &mut [u32],
    chunks: &mut [u32],
) -> usize
    requires { (s : Setting) × CanList s nodes.now a order.now low.now marks.old degrees.old chunks.old }
    ensures { (s : Setting) → CanList s nodes.now a order.now low.now marks.old degrees.old chunks.old → Told s nodes.now.registered a low.now chunks.old chunks.new result }
{
    for k in 0..a {
        let Some(i) = seek(order, marks, degrees) else {
            return k;
        };
        take(nodes, order[i] as usize, k, low, marks, degrees, chunks);
    }
    a
}
