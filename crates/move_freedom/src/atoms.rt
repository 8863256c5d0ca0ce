// The three counts, atom by atom.
// stays: load, fixed and area come one by one, as in each call on a plan. Clauses name them, and would be longer through a struct: no plainer.
// stays: the arrays have a fixed length, since memory is fixed and nothing is on the heap.
ghost use Rattle.std.specs.Prelude.{◌≡◌, ◌&&◌, ◌+◌, ◌-◌, ◌*◌, eqb, length, get_or};
ghost use Rattle.graphs.specs.Count.{count};
ghost use Rattle.graphs.specs.Lists.{below};
ghost use Rattle.graphs.specs.Slots.{slot_edge};
ghost use Rattle.graphs.specs.Walk.{cyclic};
ghost use Rattle.move_area.specs.Area.{sets_in};
ghost use Rattle.move_area.specs.Checked.{nodes_in};
ghost use Rattle.move_load_view.specs.View.{lent_by};
ghost use Rattle.move_free_walks.specs.Joins.{cut};
ghost use Rattle.move_free_walks.specs.NodeFree.{fine, counted};
ghost use Rattle.move_freedom.specs.Atoms.{counts_in, place_in, CanCounts, CanAskRest, CanCount, CanCountAtom, OfAtom, CanCountAll, Counted, CanFree, Freed};
ghost use Rattle.move_freedom.specs.Tally.{has_atom};

use super::Counts;
use super::aside::set_aside;
use super::flags::occupied_nodes;
use graph_neighbours::Slots;
use move_area::{ACYCLIC, Area};
use move_load_view::Load;

// The atom counts of the registered sets.
fn atom_counts<'a>(area: &Area<'a>) -> &'a [u32]
    requires { CanCounts area.now.numbers.now area.now.n }
    ensures { result.now ≡ counts_in area.now.n area.now.numbers.now }
{
    area.lane(8, area.numbers[area.n * area.n] as usize)
}

// Whether there is a cycle without node z. Where the area's graph has none there is none.
fn rest_cyclic(area: &Area, slots: &Slots, z: usize) -> bool
    requires { CanAskRest area.now.numbers.now area.now.n slots.now.sources.now slots.now.targets.now slots.now.count z }
    ensures { result ≡ eqb (get_or area.now.numbers.now (area.now.n * area.now.n + 2) 0) 0 && cyclic (cut (slot_edge slots.now.sources.now slots.now.targets.now slots.now.count) z) (below z) }
{
    area.header(ACYCLIC) == 0 && super::rest::has_cycle(slots, z)
}

// How many sets the atom may go to.
fn accepted(load: &Load, area: &Area, atom: usize) -> u32
    requires { CanCount (lent_by load.now) area.now.n area.now.numbers.now atom }
    ensures { result ≡ counted (lent_by load.now) (nodes_in (lent_by load.now) area.now.n area.now.numbers.now) atom (length (sets_in area.now.n area.now.numbers.now)) (fine (lent_by load.now) (nodes_in (lent_by load.now) area.now.n area.now.numbers.now) (sets_in area.now.n area.now.numbers.now) atom) }
{
    let mut sources = [0u32; 8448];
    let mut targets = [0u32; 8448];
    set_aside(load, area, atom, &mut sources, &mut targets);
    let slots = Slots {
        sources: &sources,
        targets: &targets,
        count: load.entries + load.bits,
    };
    let counts = atom_counts(area);
    if rest_cyclic(area, &slots, counts.len()) {
        return 0;
    }
    let own = area.node_of(atom);
    super::walks::open_nodes(counts, own, &slots)
}

// The counts of one atom, where there are `each` occupied sets other than its own.
fn of_atom(load: &Load, fixed: &[u32], area: &Area, atom: usize, each: u64) -> Counts
    requires { CanCountAtom (lent_by load.now) fixed.now area.now.n area.now.numbers.now atom each }
    ensures { OfAtom (lent_by load.now) fixed.now (place_in (lent_by load.now) area.now.n area.now.numbers.now) atom each result }
{
    let is_fixed = fixed[atom] != 0;
    if is_fixed {
        return Counts {
            accepted: 0,
            rejected: 0,
            fixed: each,
        };
    }
    let open = u64::from(accepted(load, area, atom));
    Counts {
        accepted: open,
        rejected: each - open,
        fixed: 0,
    }
}

// The counts of all atoms, where there are `each` occupied sets other than an atom's own.
fn of_all(load: &Load, fixed: &[u32], area: &Area, each: u64) -> Counts
    requires { CanCountAll (lent_by load.now) fixed.now area.now.n area.now.numbers.now each }
    ensures { Counted (lent_by load.now) fixed.now (place_in (lent_by load.now) area.now.n area.now.numbers.now) load.now.atoms result }
{
    let mut all = Counts {
        accepted: 0,
        rejected: 0,
        fixed: 0,
    };
    for atom in 0..load.atoms {
        let one = of_atom(load, fixed, area, atom, each);
        all.accepted += one.accepted;
        all.rejected += one.rejected;
        all.fixed += one.fixed;
    }
    all
}

// How free the plan in the area is.
pub fn how_free(load: &Load, fixed: &[u32], area: &Area) -> Counts
    requires { CanFree (lent_by load.now) fixed.now area.now.n area.now.numbers.now }
    ensures { Freed (lent_by load.now) fixed.now (place_in (lent_by load.now) area.now.n area.now.numbers.now) result }
{
    let chunks = occupied_nodes(atom_counts(area)) as u64;
    of_all(load, fixed, area, chunks.saturating_sub(1))
}
