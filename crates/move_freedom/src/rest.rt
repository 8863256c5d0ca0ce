// The graph without the node behind all others.
// stays: the arrays have a fixed length, since memory is fixed and nothing is on the heap.
ghost use Rattle.std.specs.Prelude.{◌≡◌};
ghost use Rattle.graphs.specs.Lists.{below};
ghost use Rattle.graphs.specs.Slots.{slot_edge};
ghost use Rattle.graphs.specs.Walk.{cyclic};
ghost use Rattle.move_free_walks.specs.Joins.{cut};
ghost use Rattle.move_free_walks.specs.Blanked.{blank};
ghost use Rattle.move_freedom.specs.Rest.{CanBlank, BlankedTo, CanRest};

use graph_neighbours::Slots;

// The ends of the slot from u to v, or 0 twice where one of them is z.
fn unless(u: u32, v: u32, z: u32) -> (u32, u32)
    ensures source { result.0 ≡ blank z u v u }
    ensures target { result.1 ≡ blank z u v v }
{
    if u == z || v == z {
        return (0, 0);
    }
    (u, v)
}

// The slots without those that have the end z: both ends of such a slot are 0.
fn blanks(slots: &Slots, z: u32, sources: &mut [u32], targets: &mut [u32])
    requires { CanBlank slots.now.sources.now slots.now.targets.now slots.now.count sources.old targets.old }
    ensures { BlankedTo slots.now.sources.now slots.now.targets.now z slots.now.count sources.old targets.old sources.new targets.new }
{
    for k in 0..slots.count {
        let (source, target) = unless(slots.sources[k], slots.targets[k], z);
        sources[k] = source;
        targets[k] = target;
    }
}

// Whether the graph of the slots between z + 1 nodes has a cycle without z.
pub fn has_cycle(slots: &Slots, z: usize) -> bool
    requires { CanRest slots.now.sources.now slots.now.targets.now slots.now.count z }
    ensures { result ≡ cyclic (cut (slot_edge slots.now.sources.now slots.now.targets.now slots.now.count) z) (below z) }
{
    let mut sources = [0u32; 8448];
    let mut targets = [0u32; 8448];
    let mut heads = [0u32; 1025];
    let mut list = [0u32; 8448];
    blanks(slots, z as u32, &mut sources, &mut targets);
    let rest = Slots {
        sources: &sources,
        targets: &targets,
        count: slots.count,
    };
    graph_neighbours::group(&rest, z, &mut heads, &mut list);
    graph_slots::has_cycle(&heads, &list, z)
}
