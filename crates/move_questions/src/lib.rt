// Questions about a move graph on an area that was checked: a set's atom count, the multiplicity between two sets, how many chunks and
// edges there are, and the k-th edge by rising sets.
// stays: `registered`, how many nodes have a set, comes beside the area, and `Checked` is asked in four contracts. It speaks of some load, which the area doesn't
// hold, and of `registered` by name; a type that keeps it would hold a load for the clauses alone: no plainer. k is an edge's number, no list's length.
#![tactic(auto)]

ghost use Rattle.std.specs.Prelude.{◌≡◌, ℕ, ◌+◌, ◌*◌, ◌≤◌, length, MatchOption, MatchResult};
ghost use Rattle.move_questions.specs.Steps.{edges_before, CanFindRow, RowFound, cells_before, CanFindCell, CellFound};
ghost use Rattle.entry_set.specs.Sets.{number, Holds};
ghost use Rattle.move_ledger.specs.Graph.{Load, members, mult, rising, edges};
ghost use Rattle.move_ledger.specs.Ledger.{kth};
ghost use Rattle.move_questions.specs.Answers.{place_in, set_of, CanReadSet, Checked, Listable, CanReadEdge, EdgeRead, of_listed};

use entry_set::EntrySet;
use move_area::{Area, DISTINCT, OCCUPIED};
use set_order::Lanes;

// An edge between two sets.
#[derive(Clone, Copy, PartialEq, Eq, Debug)]
pub struct Edge {
    pub from: EntrySet,
    pub to: EntrySet,
    pub multiplicity: u32,
}

// A place in the order of the nodes, and how many edges of that node come before.
#[derive(Clone, Copy, PartialEq, Eq, Debug)]
pub struct Row {
    pub at: usize,
    pub rest: u64,
}

// The row in which the k-th edge stands: the nodes' numbers of edges are passed in their order. Where no row has it, how many of k are left.
#[tactic(auto, using(crate::specs::StepLaws::rows_step))]
pub fn find_row(order: &[u32], degrees: &[u32], k: u64) -> Result<Row, u64>
    requires { CanFindRow order.now degrees.now }
    ensures { MatchResult result (RowFound order.now degrees.now k) (λ left. edges_before order.now degrees.now (length order.now) + left ≡ k) }
{
    let mut rest = k;
    for at in 0..order.len() {
        let edges = u64::from(degrees[order[at] as usize]);
        if rest < edges {
            return Ok(Row { at, rest });
        }
        rest -= edges;
    }
    Err(rest)
}

// The place in the order of the target of the edge of node x before which `rest` of its edges come.
// stays: `left` is counted down. As a chain it is the rest-th of the places that pass a test over two lists, a closure as long as the loop: no plainer.
#[tactic(auto, using(crate::specs::StepLaws::cells_yes, crate::specs::StepLaws::cells_no, graphs::specs::Count::count_none))]
pub fn find_cell(area: &Area, x: usize, order: &[u32], rest: u64) -> Option<usize>
    requires { CanFindCell area.now.numbers.now area.now.n x order.now }
    ensures { MatchOption result (cells_before area.now.numbers.now area.now.n x order.now (length order.now) ≤ rest) (CellFound area.now.numbers.now area.now.n x order.now rest) }
{
    let mut left = rest;
    for j in 0..order.len() {
        let y = order[j] as usize;
        if area.multiplicity(x, y) != 0 {
            if left == 0 {
                return Some(j);
            }
            left -= 1;
        }
    }
    None
}

// The number of distinct edges: the area keeps it.
pub fn edge_count(area: &Area) -> u64
    requires { area.now.n * area.now.n + 5 ≤ length area.now.numbers.now }
    ensures { (load : Load) (registered : ℕ) → Checked load area.now.n area.now.numbers.now registered → result ≡ length (edges load (place_in load area.now.n area.now.numbers.now)) }
{
    u64::from(area.header(DISTINCT))
}

// The number of chunks, sets that have an atom: the area keeps it too.
pub fn chunk_count(area: &Area) -> u64
    requires { area.now.n * area.now.n + 5 ≤ length area.now.numbers.now }
    ensures { (load : Load) (registered : ℕ) → Checked load area.now.n area.now.numbers.now registered → result ≡ length (rising (place_in load area.now.n area.now.numbers.now)) }
{
    u64::from(area.header(OCCUPIED))
}

// The edge from node x to node y.
fn read_edge(area: &Area, x: usize, y: usize) -> Edge
    requires { CanReadEdge area.now.numbers.now area.now.n x y }
    ensures { EdgeRead area.now.numbers.now area.now.n x y result }
{
    let lane = area.n * area.n + 24;
    Edge {
        from: EntrySet::read_lanes(area.numbers, lane + x, area.n),
        to: EntrySet::read_lanes(area.numbers, lane + y, area.n),
        multiplicity: area.multiplicity(x, y),
    }
}

// The k-th edge, from 0, by rising source set, then target set; `order` has the nodes by rising sets, `degrees` each node's number of edges.
// stays: `order` is a list for all n nodes at each caller. The part with the registered ones is taken here once, and a caller is no plainer with it.
pub fn edge_at(
    area: &Area,
    registered: usize,
    order: &[u32],
    degrees: &[u32],
    k: u64,
) -> Option<Edge>
    requires { (load : Load) × Listable load area.now.n area.now.numbers.now registered order.now degrees.now }
    ensures { (load : Load) → Listable load area.now.n area.now.numbers.now registered order.now degrees.now → of_listed result ≡ kth (edges load (place_in load area.now.n area.now.numbers.now)) k }
{
    let order = &order[..registered];
    let Ok(row) = find_row(order, degrees, k) else {
        return None;
    };
    let x = order[row.at] as usize;
    let j = find_cell(area, x, order, row.rest)?;
    let y = order[j] as usize;
    Some(read_edge(area, x, y))
}

// The set of an atom.
pub fn atom_set(area: &Area, atom: usize) -> EntrySet
    requires { CanReadSet area.now.numbers.now area.now.n atom }
    ensures { Holds (set_of area.now.numbers.now area.now.n atom) result }
{
    let node = area.node_of(atom);
    EntrySet::read_lanes(area.numbers, area.n * area.n + 24 + node, area.n)
}

// How many atoms have the set.
pub fn atom_count(area: &Area, registered: usize, set: EntrySet) -> u32
    requires { (load : Load) × Checked load area.now.n area.now.numbers.now registered }
    ensures { (load : Load) → Checked load area.now.n area.now.numbers.now registered → result ≡ members load (place_in load area.now.n area.now.numbers.now) (number set) }
{
    let n = area.n;
    let at = n * n + 24;
    let sets = Lanes {
        area: area.numbers,
        at,
        n,
    };
    match sets.find(registered, set) {
        Some(x) => area.numbers[at + 8 * n + x],
        None => 0,
    }
}

// The multiplicity from one set to another: how many dependencies and facades lead there.
pub fn multiplicity(area: &Area, registered: usize, from: EntrySet, to: EntrySet) -> u32
    requires { (load : Load) × Checked load area.now.n area.now.numbers.now registered }
    ensures { (load : Load) → Checked load area.now.n area.now.numbers.now registered → result ≡ mult load (place_in load area.now.n area.now.numbers.now) (number from) (number to) }
{
    let n = area.n;
    let sets = Lanes {
        area: area.numbers,
        at: n * n + 24,
        n,
    };
    let Some(x) = sets.find(registered, from) else {
        return 0;
    };
    let Some(y) = sets.find(registered, to) else {
        return 0;
    };
    area.multiplicity(x, y)
}
