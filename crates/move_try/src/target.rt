// Step 2: the target's node.
// stays: a writer has N and the list itself, as move_fixed says; `n` is the lanes' distance there, not a list's length.
ghost use Rattle.std.specs.Prelude.{◌≡◌, ◌+◌, ◌*◌, ◌≤◌};
ghost use Rattle.entry_set.specs.Sets.{number};
ghost use Rattle.move_try.specs.Areas.{registered, sets_with, CanRegister};
ghost use Rattle.move_try.specs.Early.{Place};
ghost use Rattle.move_try.specs.Target.{CanTarget, Targeted};

use entry_set::EntrySet;
use set_order::Lanes;

// How many sets are registered once one has the place `to`, of m so far: one more where that is the next one.
fn count_with(m: usize, to: usize) -> u32
    requires { m ≤ 1024 }
    ensures { result ≡ sets_with m to }
{
    m as u32 + u32::from(to == m)
}

// The set becomes the node `to`, of m so far: the next one, or one that is empty.
fn add_node(area: &mut [u32], n: usize, m: usize, to: usize, set: EntrySet)
    requires { CanRegister n m to area.old }
    ensures { area.new ≡ registered n (sets_with m to) to (number set) area.old }
{
    let square = n * n;
    set.write_lanes(area, square + 24 + to, n);
    area[square] = count_with(m, to);
    area[square + 24 + 9 * n + to] = 0;
}

// The place of an unseen target, of m so far: the next one, or where all n are taken that of the smallest empty set.
fn place(sets: &Lanes, m: usize) -> usize
    requires { CanTarget sets.now.n m sets.now.area.now × (sets.now.at ≡ sets.now.n * sets.now.n + 24) }
    ensures { Place sets.now.area.now sets.now.n m result }
{
    if m < sets.n {
        return m;
    }
    move_places::smallest_empty(sets, sets.at + 8 * sets.n).unwrap()
}

// The target's node, of m so far. An unseen one is registered at its place.
pub fn registered_node(area: &mut [u32], n: usize, m: usize, target: EntrySet) -> usize
    requires { CanTarget n m area.old }
    ensures { Targeted n m (number target) area.old result area.new }
{
    let sets = Lanes {
        area,
        at: n * n + 24,
        n,
    };
    if let Some(node) = sets.find(m, target) {
        return node;
    }
    let to = place(&sets, m);
    add_node(area, n, m, to, target);
    to
}
