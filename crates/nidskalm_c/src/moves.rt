// The calls of the move graph.
// stays: the C interface: its names, its numbers and its lists, one by one. The load is made of them here.
ghost use Rattle.std.specs.Prelude.{◌≡◌};
ghost use Rattle.move_ledger.specs.Graph.{lent};
ghost use Rattle.move_ledger.specs.Ledger as ledger;
ghost use Rattle.move_load_view.specs.View.{lent_by};
ghost use Rattle.move_area.specs.Calls as calls;
ghost use Rattle.move_order.specs.Order.{started};
ghost use Rattle.move_rank.specs.Ranking.{ranking};
ghost use Rattle.nidskalm_replies.specs.Replies.{move_reply, try_reply, set_reply, edge_reply, freedom_reply};
ghost use Rattle.plan_freedom.specs.Told.{told};

use move_load_view::Load;
use nidskalm_replies::{EdgeReply, FreedomReply, MoveReply, Reply, SetReply};

// The load that a call is lent, as one.
fn lent<'l>(
    a: u64,
    d: u64,
    e: u64,
    starts: &'l [u32],
    dependencies: &'l [u32],
    hosts: &'l [u32],
) -> Load<'l, 'l, 'l>
    ensures { lent_by result ≡ lent a d e starts.now dependencies.now hosts.now }
{
    Load {
        atoms: a as usize,
        entries: d as usize,
        bits: e as usize,
        starts,
        dependencies,
        hosts,
    }
}

// Loads a graph: 0 where it is acyclic, 1 where it is cyclic.
#[unsafe(no_mangle)]
pub extern "C" fn nidskalm_reduced_chunk_graph_new(
    a: u64,
    d: u64,
    e: u64,
    n: u64,
    starts: &[u32],
    dependencies: &[u32],
    hosts: &[u32],
    fixed: &[u32],
    sets: &[u64],
    area: &mut [u32],
) -> Reply
    ensures value { result ≡ move_reply (calls.new (lent a d e starts.now dependencies.now hosts.now) fixed.now n sets.now area.old).answer }
    ensures area_after { area.new ≡ (calls.new (lent a d e starts.now dependencies.now hosts.now) fixed.now n sets.now area.old).area }
{
    let load = lent(a, d, e, starts, dependencies, hosts);
    nidskalm::moves::nidskalm_reduced_chunk_graph_new(&load, n, fixed, sets, area)
}

// Moves an atom to a set if no cycle arises: how many distinct edges then appear and vanish, and how many other chunks
// its chunk then reaches.
#[unsafe(no_mangle)]
pub extern "C" fn nidskalm_reduced_chunk_graph_try_move(
    a: u64,
    d: u64,
    e: u64,
    n: u64,
    starts: &[u32],
    dependencies: &[u32],
    hosts: &[u32],
    fixed: &[u32],
    area: &mut [u32],
    atom: u32,
    bits: &[u64],
) -> MoveReply
    ensures value { result ≡ try_reply (calls.try_move (lent a d e starts.now dependencies.now hosts.now) fixed.now n area.old atom bits.now).answer }
    ensures area_after { area.new ≡ (calls.try_move (lent a d e starts.now dependencies.now hosts.now) fixed.now n area.old atom bits.now).area }
{
    let load = lent(a, d, e, starts, dependencies, hosts);
    nidskalm::moves::nidskalm_reduced_chunk_graph_try_move(&load, n, fixed, area, atom, bits)
}

// An atom's set.
#[unsafe(no_mangle)]
pub extern "C" fn nidskalm_reduced_chunk_graph_atom_set(
    a: u64,
    d: u64,
    e: u64,
    n: u64,
    starts: &[u32],
    dependencies: &[u32],
    hosts: &[u32],
    fixed: &[u32],
    area: &[u32],
    atom: u32,
) -> SetReply
    ensures { result ≡ set_reply (calls.asked (lent a d e starts.now dependencies.now hosts.now) fixed.now n area.now (ledger.atom_set atom)) }
{
    let load = lent(a, d, e, starts, dependencies, hosts);
    nidskalm::moves::nidskalm_reduced_chunk_graph_atom_set(&load, n, fixed, area, atom)
}

// A set's atom count.
#[unsafe(no_mangle)]
pub extern "C" fn nidskalm_reduced_chunk_graph_atom_count(
    a: u64,
    d: u64,
    e: u64,
    n: u64,
    starts: &[u32],
    dependencies: &[u32],
    hosts: &[u32],
    fixed: &[u32],
    area: &[u32],
    bits: &[u64],
) -> Reply
    ensures { result ≡ move_reply (calls.asked (lent a d e starts.now dependencies.now hosts.now) fixed.now n area.now (ledger.atom_count bits.now)) }
{
    let load = lent(a, d, e, starts, dependencies, hosts);
    nidskalm::moves::nidskalm_reduced_chunk_graph_atom_count(&load, n, fixed, area, bits)
}

// The multiplicity of the edge from one set to another.
#[unsafe(no_mangle)]
pub extern "C" fn nidskalm_reduced_chunk_graph_multiplicity(
    a: u64,
    d: u64,
    e: u64,
    n: u64,
    starts: &[u32],
    dependencies: &[u32],
    hosts: &[u32],
    fixed: &[u32],
    area: &[u32],
    from: &[u64],
    to: &[u64],
) -> Reply
    ensures { result ≡ move_reply (calls.asked (lent a d e starts.now dependencies.now hosts.now) fixed.now n area.now (ledger.multiplicity from.now to.now)) }
{
    let load = lent(a, d, e, starts, dependencies, hosts);
    nidskalm::moves::nidskalm_reduced_chunk_graph_multiplicity(&load, n, fixed, area, from, to)
}

// The number of distinct edges.
#[unsafe(no_mangle)]
pub extern "C" fn nidskalm_reduced_chunk_graph_edge_count(
    a: u64,
    d: u64,
    e: u64,
    n: u64,
    starts: &[u32],
    dependencies: &[u32],
    hosts: &[u32],
    fixed: &[u32],
    area: &[u32],
) -> Reply
    ensures { result ≡ move_reply (calls.asked (lent a d e starts.now dependencies.now hosts.now) fixed.now n area.now ledger.edge_count) }
{
    let load = lent(a, d, e, starts, dependencies, hosts);
    nidskalm::moves::nidskalm_reduced_chunk_graph_edge_count(&load, n, fixed, area)
}

// The number of chunks: sets that have an atom.
#[unsafe(no_mangle)]
pub extern "C" fn nidskalm_reduced_chunk_graph_chunk_count(
    a: u64,
    d: u64,
    e: u64,
    n: u64,
    starts: &[u32],
    dependencies: &[u32],
    hosts: &[u32],
    fixed: &[u32],
    area: &[u32],
) -> Reply
    ensures { result ≡ move_reply (calls.asked (lent a d e starts.now dependencies.now hosts.now) fixed.now n area.now ledger.chunk_count) }
{
    let load = lent(a, d, e, starts, dependencies, hosts);
    nidskalm::moves::nidskalm_reduced_chunk_graph_chunk_count(&load, n, fixed, area)
}

// The k-th edge, from 0, by rising source set, then target set.
#[unsafe(no_mangle)]
pub extern "C" fn nidskalm_reduced_chunk_graph_edge_at(
    a: u64,
    d: u64,
    e: u64,
    n: u64,
    starts: &[u32],
    dependencies: &[u32],
    hosts: &[u32],
    fixed: &[u32],
    area: &[u32],
    k: u64,
) -> EdgeReply
    ensures { result ≡ edge_reply (calls.asked (lent a d e starts.now dependencies.now hosts.now) fixed.now n area.now (ledger.edge_at k)) }
{
    let load = lent(a, d, e, starts, dependencies, hosts);
    nidskalm::moves::nidskalm_reduced_chunk_graph_edge_at(&load, n, fixed, area, k)
}

// Ranks the placements of two areas: 0 where the first comes before the second, 1 where they are equal, 2 where it comes after.
#[unsafe(no_mangle)]
pub extern "C" fn nidskalm_reduced_chunk_graph_rank(
    a: u64,
    d: u64,
    e: u64,
    n: u64,
    starts: &[u32],
    dependencies: &[u32],
    hosts: &[u32],
    fixed: &[u32],
    first: &[u32],
    second: &[u32],
) -> Reply
    ensures { result ≡ move_reply (ranking (lent a d e starts.now dependencies.now hosts.now) fixed.now n first.now second.now) }
{
    let load = lent(a, d, e, starts, dependencies, hosts);
    nidskalm::moves::nidskalm_reduced_chunk_graph_rank(&load, n, fixed, first, second)
}

// Whether there is a cycle, by the book's search: 0 where there is none, 1 where there is one.
#[unsafe(no_mangle)]
pub extern "C" fn nidskalm_reduced_chunk_graph_has_cycle(
    a: u64,
    d: u64,
    e: u64,
    n: u64,
    starts: &[u32],
    dependencies: &[u32],
    hosts: &[u32],
    fixed: &[u32],
    area: &[u32],
) -> Reply
    ensures { result ≡ move_reply (calls.asked (lent a d e starts.now dependencies.now hosts.now) fixed.now n area.now ledger.has_cycle) }
{
    let load = lent(a, d, e, starts, dependencies, hosts);
    nidskalm::moves::nidskalm_reduced_chunk_graph_has_cycle(&load, n, fixed, area)
}

// The chunks to fetch for an entry bit, each behind all that its edges lead to, by their lowest atoms: how many there are.
#[unsafe(no_mangle)]
pub extern "C" fn nidskalm_reduced_chunk_graph_start_order(
    a: u64,
    d: u64,
    e: u64,
    n: u64,
    starts: &[u32],
    dependencies: &[u32],
    hosts: &[u32],
    fixed: &[u32],
    area: &[u32],
    bit: u64,
    chunks: &mut [u32],
) -> Reply
    ensures value { result ≡ move_reply (started (lent a d e starts.now dependencies.now hosts.now) fixed.now n area.now bit chunks.old).answer }
    ensures chunks_after { chunks.new ≡ (started (lent a d e starts.now dependencies.now hosts.now) fixed.now n area.now bit chunks.old).chunks }
{
    let load = lent(a, d, e, starts, dependencies, hosts);
    nidskalm::moves::nidskalm_reduced_chunk_graph_start_order(&load, n, fixed, area, bit, chunks)
}

// For every atom and every occupied set other than its own, how many moves would be accepted, rejected, or refused as the atom is fixed.
#[unsafe(no_mangle)]
pub extern "C" fn nidskalm_reduced_chunk_graph_freedom(
    a: u64,
    d: u64,
    e: u64,
    n: u64,
    starts: &[u32],
    dependencies: &[u32],
    hosts: &[u32],
    fixed: &[u32],
    area: &[u32],
) -> FreedomReply
    ensures { result ≡ freedom_reply (told (lent a d e starts.now dependencies.now hosts.now) fixed.now n area.now) }
{
    let load = lent(a, d, e, starts, dependencies, hosts);
    nidskalm::moves::nidskalm_reduced_chunk_graph_freedom(&load, n, fixed, area)
}
