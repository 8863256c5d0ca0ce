// A loading with its working lists, in two sizes.
ghost use Rattle.std.specs.Prelude.{◌≡◌, length};
ghost use Rattle.graphs.specs.Walk.{cyclic};
ghost use Rattle.move_ledger.specs.Graph.{edge};
ghost use Rattle.move_ledger.specs.Loading.{entry_sets};
ghost use Rattle.move_ledger.specs.LoadLaws.{Loadable-sets};
ghost use Rattle.move_load_view.specs.View.{lent_by};
ghost use Rattle.move_area.specs.Area.{encode};
ghost use Rattle.move_area.specs.Calls.{first};
ghost use Rattle.move_loading.specs.Steps.{CanLoad};

use graph_neighbours::Slots;
use move_load_view::Load;

// stays: a writer has N and the list itself, as move_fixed says; `n` is the lanes' distance there, not a list's length.
// stays: memory is fixed, nothing is on the heap: the working lists are arrays.

// With lists for the heads of the nodes and for so many slots. `heads` has the atom counts first. A function of its own to the compiler at each size, so that a
// small load takes no stack for the lists of a large one.
#[inline(never)]
fn load_in<const HEADS: usize, const SLOTS: usize>(
    load: &Load,
    n: usize,
    sets: &[u64],
    area: &mut [u32],
) -> bool
    requires { CanLoad (lent_by load.now) n sets.now area.old HEADS SLOTS }
    ensures value { result ≡ cyclic (edge (lent_by load.now) (entry_sets (lent_by load.now) sets.now)) (entry_sets (lent_by load.now) sets.now) }
    ensures area_after { area.new ≡ encode (lent_by load.now) n (first (lent_by load.now) n sets.now) area.old }
{
    let mut sources = [0u32; SLOTS];
    let mut targets = [0u32; SLOTS];
    let mut heads = [0u32; HEADS];
    let mut list = [0u32; SLOTS];
    super::start::write_start(load, n, sets, area);
    let count = super::graph::write_graph(load, n, area, &mut heads, &mut sources, &mut targets);
    let slots = Slots {
        sources: &sources,
        targets: &targets,
        count,
    };
    super::flags::write_flags(area, n, &slots, &mut heads, &mut list)
}

// No row from 1 to 8 fits. Writes the first state, each atom in a node of its own, and tells whether it is cyclic.
pub fn load(load: &Load, n: usize, sets: &[u64], area: &mut [u32]) -> bool
    requires { Loadable-sets (lent_by load.now) n sets.now (length area.old) }
    ensures value { result ≡ cyclic (edge (lent_by load.now) (entry_sets (lent_by load.now) sets.now)) (entry_sets (lent_by load.now) sets.now) }
    ensures area_after { area.new ≡ encode (lent_by load.now) n (first (lent_by load.now) n sets.now) area.old }
{
    if move_slots::is_small(load, n) {
        return load_in::<129, 1024>(load, n, sets, area);
    }
    load_in::<1025, 8448>(load, n, sets, area)
}
