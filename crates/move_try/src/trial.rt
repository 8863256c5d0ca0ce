// The moved placement on trial, in lists of its own.
// stays: memory is fixed, nothing is on the heap.
ghost use Rattle.std.specs.Prelude.{set};
ghost use Rattle.move_area.specs.Area.{sets_in};
ghost use Rattle.move_area.specs.Checked.{nodes_in};
ghost use Rattle.move_load_view.specs.View.{lent_by};
ghost use Rattle.move_slots.specs.Filled.{Filled};
ghost use Rattle.move_try.specs.Trial.{CanTrial};

use move_area::Area;
use move_load_view::Load;

// The atom counts and the slots of the placement with the atom in node `to`.
pub fn trial(
    load: &Load,
    area: &Area,
    atom: usize,
    to: usize,
    counts: &mut [u32],
    sources: &mut [u32],
    targets: &mut [u32],
)
    requires { CanTrial (lent_by load.now) area.now.n area.now.numbers.now atom to counts.old sources.old targets.old }
    ensures { Filled (lent_by load.now) area.now.n (set (nodes_in (lent_by load.now) area.now.n area.now.numbers.now) atom to) (sets_in area.now.n area.now.numbers.now) counts.new sources.new targets.new }
{
    let mut nodes = [0u32; 512];
    let moved = &mut nodes[..load.atoms];
    let from = area.n * area.n + 24 + 24 * area.n;
    moved.copy_from_slice(&area.numbers[from..from + load.atoms]);
    moved[atom] = to as u32;
    let registered = area.numbers[area.n * area.n] as usize;
    move_slots::fill_slots(load, moved, area, registered, counts, sources, targets);
}
