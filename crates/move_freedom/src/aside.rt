// The slots with an atom set aside, at a node behind all registered sets.
// stays: the arrays have a fixed length, since memory is fixed and nothing is on the heap.
ghost use Rattle.std.specs.Prelude.{◌*◌, get_or, set};
ghost use Rattle.move_area.specs.Area.{sets_in};
ghost use Rattle.move_area.specs.Checked.{nodes_in};
ghost use Rattle.move_load_view.specs.View.{lent_by};
ghost use Rattle.move_slots.specs.SlotLaws.{Slotted};
ghost use Rattle.move_freedom.specs.Aside.{CanFill, CanSetAside};

use move_area::Area;
use move_load_view::Load;

// The slots where each atom is in one of the area's registered nodes, or at the one behind them.
// stays: the three steps of move_slots' `fill_slots`, which counts n nodes: here one more is counted, behind the registered ones, and it may be the n-th: no plainer
// than a parameter for that in the other.
fn fill(load: &Load, nodes: &[u32], area: &Area, sources: &mut [u32], targets: &mut [u32])
    requires { CanFill (lent_by load.now) area.now.n nodes.now area.now.numbers.now sources.old targets.old }
    ensures { Slotted (lent_by load.now) nodes.now (sets_in area.now.n area.now.numbers.now) sources.new targets.new }
{
    let n = area.n;
    let registered = area.numbers[n * n] as usize;
    let mut counts = [0u32; 1025];
    let mut facade = [0u32; 256];
    move_slots::tally(&mut counts[..registered + 1], nodes);
    let facades = &mut facade[..load.bits];
    move_slots::facades(area.numbers, n * n + 24, n, &counts[..registered], facades);
    move_slots::write_slots(load, nodes, &facade, sources, targets);
}

// The slots of the area's placement with the atom at the node behind the registered ones.
pub fn set_aside(load: &Load, area: &Area, atom: usize, sources: &mut [u32], targets: &mut [u32])
    requires { CanSetAside (lent_by load.now) area.now.n area.now.numbers.now atom sources.old targets.old }
    ensures { Slotted (lent_by load.now) (set (nodes_in (lent_by load.now) area.now.n area.now.numbers.now) atom (get_or area.now.numbers.now (area.now.n * area.now.n) 0)) (sets_in area.now.n area.now.numbers.now) sources.new targets.new }
{
    let mut places = [0u32; 512];
    let nodes = &mut places[..load.atoms];
    nodes.copy_from_slice(area.nodes(load.atoms));
    nodes[atom] = area.numbers[area.n * area.n];
    fill(load, nodes, area, sources, targets);
}
