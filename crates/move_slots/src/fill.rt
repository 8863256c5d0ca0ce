// The edge slots of a placement, with the sets that an area names.
ghost use Rattle.std.specs.Prelude.{◌≡◌, ◌+◌, ◌≤◌};
ghost use Rattle.move_area.specs.Area.{sets_in};
ghost use Rattle.move_area.specs.Checked.{nodes_in};
ghost use Rattle.move_load_view.specs.View.{lent_by};
ghost use Rattle.move_slots.specs.Counted.{slot_count};
ghost use Rattle.move_slots.specs.Filled.{CanFill, Filled, CanFillOwn};

use move_area::Area;
use move_load_view::Load;

// stays: memory is fixed, nothing is on the heap: the facades stand in an array. Sources and targets, which are written, come one by one: they are arrays of each
// caller, and a struct of two `&mut` would be made at each call: no plainer.

// How many slots there are: none without a node, as the ends of a slot are nodes.
pub fn slot_count(load: &Load, n: usize) -> usize
    requires { load.now.entries + load.now.bits ≤ 8448 }
    ensures { result ≡ slot_count n load.now.entries load.now.bits }
{
    if n == 0 { 0 } else { load.entries + load.bits }
}

// The atom counts of the nodes, and all slots. `nodes` has the node of each atom: the area's own, or those of a move on trial.
pub fn fill_slots(
    load: &Load,
    nodes: &[u32],
    area: &Area,
    registered: usize,
    counts: &mut [u32],
    sources: &mut [u32],
    targets: &mut [u32],
)
    requires { CanFill (lent_by load.now) area.now.n nodes.now area.now.numbers.now registered counts.old sources.old targets.old }
    ensures { Filled (lent_by load.now) area.now.n nodes.now (sets_in area.now.n area.now.numbers.now) counts.new sources.new targets.new }
{
    let mut facade = [0u32; 256];
    super::slots::tally(&mut counts[..area.n], &nodes[..load.atoms]);
    let facades = &mut facade[..load.bits];
    super::fronts::facades(
        area.numbers,
        area.n * area.n + 24,
        area.n,
        &counts[..registered],
        facades,
    );
    super::slots::write_slots(load, nodes, &facade, sources, targets);
}

// The same for the area's own placement.
pub fn fill_own_slots(
    load: &Load,
    area: &Area,
    counts: &mut [u32],
    sources: &mut [u32],
    targets: &mut [u32],
)
    requires { CanFillOwn (lent_by load.now) area.now.n area.now.numbers.now counts.old sources.old targets.old }
    ensures { Filled (lent_by load.now) area.now.n (nodes_in (lent_by load.now) area.now.n area.now.numbers.now) (sets_in area.now.n area.now.numbers.now) counts.new sources.new targets.new }
{
    let registered = area.registered();
    let nodes = area.nodes(load.atoms);
    fill_slots(load, nodes, area, registered, counts, sources, targets);
}
