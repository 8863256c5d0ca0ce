// The multiplicities of a graph's edges, kept in a square of n rows.
//
// A slot k of two lists is the edge from what stands in the first to what stands in the second,
// and no edge where the two are equal.
#![tactic(auto)]

ghost use Rattle.std.specs.Prelude.{◌≡◌, cond, ◌&&◌, ◌+◌, get_or};
ghost use Rattle.graphs.specs.Slots.{added, removed};
ghost use Rattle.layout.specs.Patch.{patch};
ghost use Rattle.move_edges.specs.Matrix.{matrix};
ghost use Rattle.move_edges.specs.Steps.{CanAdd, CanRemove, CanGainOne, CanShedOne, CanGain, CanShed, CanUpdate, CanFill, filled, appears, vanishes, Changed, changed, gained, lost, Grown, Fallen, InBoth};

use graph_neighbours::Slots;

pub mod rows;

// stays: `n` is how far apart the rows of the square stand, at the front of the area that C lends, and no list's length. A writer has the square itself beside n:
// a struct over a lent list that is written would make each clause say, besides what is written, that n and the loan's end stay: no plainer.

// How many edges one graph has that the other hasn't: those that appeared, those that vanished.
#[derive(Clone, Copy, PartialEq, Eq, Debug)]
pub struct Changes {
    pub appeared: u32,
    pub vanished: u32,
}

// One edge more from x to y, and whether it appeared; nothing where the two are equal.
// stays: a twin of `remove`: one adds what may not overflow, the other takes what must be there, so that their laws differ; one function over a closure
// would need the closure's law and both laws of the matrix beside it: no plainer.
#[tactic(auto, unfolding(graphs::specs::Slots::more))]
pub fn add(edges: &mut [u32], n: usize, x: u32, y: u32) -> bool
    requires { CanAdd edges.old n x y }
    ensures value { result ≡ appears edges.old n x y }
    ensures edges_after { edges.new ≡ added edges.old n x y }
{
    if x != y {
        let i = x as usize * n + y as usize;
        let old = edges[i];
        edges[i] = old + 1;
        return old == 0;
    }
    false
}

// One edge less from x to y, and whether it vanished; nothing where the two are equal.
#[tactic(auto, unfolding(graphs::specs::Slots::less))]
pub fn remove(edges: &mut [u32], n: usize, x: u32, y: u32) -> bool
    requires { CanRemove edges.old n x y }
    ensures value { result ≡ vanishes edges.old n x y }
    ensures edges_after { edges.new ≡ removed edges.old n x y }
{
    if x != y {
        let i = x as usize * n + y as usize;
        let old = edges[i];
        edges[i] = old - 1;
        return old == 1;
    }
    false
}

// Whether slot k changes from the old slots to the new ones.
fn is_changed(old: &Slots, new: &Slots, k: usize) -> bool
    requires { InBoth old.now.sources.now old.now.targets.now new.now.sources.now new.now.targets.now k }
    ensures { result ≡ changed old.now.sources.now old.now.targets.now new.now.sources.now new.now.targets.now k }
{
    old.sources[k] != new.sources[k] || old.targets[k] != new.targets[k]
}

// A changed slot's new edge is added: whether it appeared.
fn gain(edges: &mut [u32], n: usize, old: &Slots, new: &Slots, k: usize) -> bool
    requires { CanGainOne edges.old n old.now.sources.now old.now.targets.now new.now.sources.now new.now.targets.now k }
    ensures value { result ≡ (changed old.now.sources.now old.now.targets.now new.now.sources.now new.now.targets.now k && appears edges.old n (get_or new.now.sources.now k 0) (get_or new.now.targets.now k 0)) }
    ensures edges_after { edges.new ≡ cond (changed old.now.sources.now old.now.targets.now new.now.sources.now new.now.targets.now k) (added edges.old n (get_or new.now.sources.now k 0) (get_or new.now.targets.now k 0)) edges.old }
{
    is_changed(old, new, k) && add(edges, n, new.sources[k], new.targets[k])
}

// A changed slot's old edge is removed: whether it vanished.
fn shed(edges: &mut [u32], n: usize, old: &Slots, new: &Slots, k: usize) -> bool
    requires { CanShedOne edges.old n old.now.sources.now old.now.targets.now new.now.sources.now new.now.targets.now k }
    ensures value { result ≡ (changed old.now.sources.now old.now.targets.now new.now.sources.now new.now.targets.now k && vanishes edges.old n (get_or old.now.sources.now k 0) (get_or old.now.targets.now k 0)) }
    ensures edges_after { edges.new ≡ cond (changed old.now.sources.now old.now.targets.now new.now.sources.now new.now.targets.now k) (removed edges.old n (get_or old.now.sources.now k 0) (get_or old.now.targets.now k 0)) edges.old }
{
    is_changed(old, new, k) && remove(edges, n, old.sources[k], old.targets[k])
}

// Every changed slot's new edge is added: how many appeared.
// stays: a twin of `shed_all`, as `add` is of `remove`, and for the same reason: what each turn asks and shows differs.
fn gain_all(edges: &mut [u32], n: usize, old: &Slots, new: &Slots) -> u32
    requires { CanGain edges.old n old.now.sources.now old.now.targets.now new.now.sources.now new.now.targets.now old.now.count }
    ensures n_value { result + filled edges.old n ≡ filled edges.new n }
    ensures grown { Grown (gained old.now.sources.now old.now.targets.now new.now.sources.now new.now.targets.now n) old.now.count edges.old edges.new }
{
    let mut found = 0;
    for k in 0..old.count {
        found += u32::from(gain(edges, n, old, new, k));
    }
    found
}

// Every changed slot's old edge is removed: how many vanished.
fn shed_all(edges: &mut [u32], n: usize, old: &Slots, new: &Slots) -> u32
    requires { CanShed edges.old n old.now.sources.now old.now.targets.now new.now.sources.now new.now.targets.now old.now.count }
    ensures n_after { result + filled edges.new n ≡ filled edges.old n }
    ensures fallen { Fallen (lost old.now.sources.now old.now.targets.now new.now.sources.now new.now.targets.now n) old.now.count edges.old edges.new }
{
    let mut found = 0;
    for k in 0..old.count {
        found += u32::from(shed(edges, n, old, new, k));
    }
    found
}

// The matrix of the old slots becomes that of as many new ones. Edges come before edges go, so that one
// that is in both graphs is there all the time.
pub fn update(edges: &mut [u32], n: usize, old: &Slots, new: &Slots) -> Changes
    requires { CanUpdate edges.old n old.now.sources.now old.now.targets.now new.now.sources.now new.now.targets.now old.now.count }
    ensures changed { Changed n old.now.sources.now old.now.targets.now new.now.sources.now new.now.targets.now old.now.count result.appeared result.vanished }
    ensures edges_after { edges.new ≡ patch 0 (matrix new.now.sources.now new.now.targets.now n old.now.count) edges.old }
{
    let appeared = gain_all(edges, n, old, new);
    let vanished = shed_all(edges, n, old, new);
    Changes { appeared, vanished }
}

// The matrix of the slots, from nothing, and how many of its numbers aren't 0.
pub fn fill(edges: &mut [u32], n: usize, slots: &Slots) -> u32
    requires { CanFill edges.old n slots.now.sources.now slots.now.targets.now slots.now.count }
    ensures value { result ≡ filled edges.new n }
    ensures edges_after { edges.new ≡ patch 0 (matrix slots.now.sources.now slots.now.targets.now n slots.now.count) edges.old }
{
    edges[..n * n].fill(0);
    let mut found = 0;
    for k in 0..slots.count {
        found += u32::from(add(edges, n, slots.sources[k], slots.targets[k]));
    }
    found
}
