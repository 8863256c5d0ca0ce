// The edge slots of the chunk graph, from the node of each atom (None is 4294967295).
//
// Slot k below d leads from the node of entry k's atom to the node of the dependency. Slot d + b is the facade edge of entry
// bit b. A slot whose two ends are equal is no edge.
ghost use Rattle.std.specs.Prelude.{◌≡◌, length};
ghost use Rattle.graphs.specs.Tab.{tab};
ghost use Rattle.layout.specs.Patch.{patch};
ghost use Rattle.move_ledger.specs.Nodes.{face_source, face_target};
ghost use Rattle.move_load_view.specs.View.{lent_by};
ghost use Rattle.move_slots.specs.Written.{Written};
ghost use Rattle.move_slots.specs.Slots.{atoms, entry_source, entry_target, facade_source, facade_target, sources_by, targets_by};
ghost use Rattle.move_slots.specs.Steps.{CanTally, CanSources, CanTargets, CanFace, CanFacades, CanSlots};

use move_load_view::Load;

// No node, in the list of hosts that a load lends and in the list of facade nodes.
// stays: the lent hosts are numbers, by the C interface, and the facade nodes meet them in one test for each slot: a list of options beside the lent one would be
// read another way and be twice as long, and `Load::host_of` gives what is lent: no plainer.
pub const NONE: u32 = 4294967295;

// How many atoms each node has; `nodes` has the node of each atom.
pub fn tally(counts: &mut [u32], nodes: &[u32])
    requires { CanTally counts.old nodes.now }
    ensures { counts.new ≡ tab (atoms nodes.now (length nodes.now)) (length counts.old) }
{
    counts.fill(0);
    for &node in nodes {
        counts[node as usize] += 1;
    }
}

// The node of each entry's atom: the dependencies of an atom come behind those of the atoms before it.
fn entry_sources(load: &Load, nodes: &[u32], sources: &mut [u32])
    requires { CanSources (lent_by load.now) nodes.now sources.old }
    ensures { Written (entry_source (lent_by load.now) nodes.now) 0 load.now.entries sources.old sources.new }
{
    let mut from = 0;
    for atom in 0..load.atoms {
        let to = from + load.dependencies_of(atom).len();
        sources[from..to].fill(nodes[atom]);
        from = to;
    }
}

// The node of each dependency.
fn entry_targets(load: &Load, nodes: &[u32], targets: &mut [u32])
    requires { CanTargets (lent_by load.now) nodes.now targets.old }
    ensures { Written (entry_target load.now.dependencies.now nodes.now) 0 load.now.entries targets.old targets.new }
{
    for k in 0..load.entries {
        targets[k] = nodes[load.dependencies[k] as usize];
    }
}

// The ends of the facade edge from a facade's node to the node of its host; none where one of the two is None.
fn facade_ends(nodes: &[u32], facade: u32, host: u32) -> (u32, u32)
    requires { CanFace nodes.now host }
    ensures source { result.0 ≡ face_source facade host }
    ensures target { result.1 ≡ face_target nodes.now facade host }
{
    if facade == NONE || host == NONE {
        return (0, 0);
    }
    (facade, nodes[host as usize])
}

// The slots of the facade edges, behind those of the entries.
fn facade_slots(
    load: &Load,
    nodes: &[u32],
    facade: &[u32],
    sources: &mut [u32],
    targets: &mut [u32],
)
    requires { CanFacades (lent_by load.now) nodes.now facade.now sources.old targets.old }
    ensures sources_after { Written (facade_source load.now.hosts.now facade.now) load.now.entries load.now.bits sources.old sources.new }
    ensures targets_after { Written (facade_target load.now.hosts.now nodes.now facade.now) load.now.entries load.now.bits targets.old targets.new }
{
    for bit in 0..load.bits {
        let (source, target) = facade_ends(nodes, facade[bit], load.host_of(bit));
        let slot = load.entries + bit;
        sources[slot] = source;
        targets[slot] = target;
    }
}

// All slots of a placement; `facade` has the facade's node of each entry bit.
pub fn write_slots(
    load: &Load,
    nodes: &[u32],
    facade: &[u32],
    sources: &mut [u32],
    targets: &mut [u32],
)
    requires { CanSlots (lent_by load.now) nodes.now facade.now sources.old targets.old }
    ensures sources_after { sources.new ≡ patch 0 (sources_by (lent_by load.now) nodes.now facade.now) sources.old }
    ensures targets_after { targets.new ≡ patch 0 (targets_by (lent_by load.now) nodes.now facade.now) targets.old }
{
    entry_sources(load, nodes, sources);
    entry_targets(load, nodes, targets);
    facade_slots(load, nodes, facade, sources, targets);
}
