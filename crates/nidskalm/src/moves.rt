// The calls of the move graph.
// stays: the C interface: a call takes what its export is lent, the load as a struct, then N, the marks and the area one by one, and asks nothing of it: no fact is
// there for a struct to keep.
ghost use Rattle.std.specs.Prelude.{◌≡◌};
ghost use Rattle.move_ledger.specs.Ledger as ledger;
ghost use Rattle.move_load_view.specs.View.{lent_by};
ghost use Rattle.move_area.specs.Calls as calls;
ghost use Rattle.move_order.specs.Order.{started};
ghost use Rattle.move_rank.specs.Ranking.{ranking};
ghost use Rattle.nidskalm_replies.specs.Replies.{move_reply, try_reply, set_reply, edge_reply, freedom_reply};
ghost use Rattle.plan_freedom.specs.Told.{told};

use move_load_view::Load;
use nidskalm_replies::{EdgeReply, FreedomReply, MoveReply, Reply, SetReply};

// Loads a graph: 0 where it is acyclic, 1 where it is cyclic.
pub fn nidskalm_reduced_chunk_graph_new(
    load: &Load,
    n: u64,
    fixed: &[u32],
    sets: &[u64],
    area: &mut [u32],
) -> Reply
    ensures value { result ≡ move_reply (calls.new (lent_by load.now) fixed.now n sets.now area.old).answer }
    ensures area_after { area.new ≡ (calls.new (lent_by load.now) fixed.now n sets.now area.old).area }
{
    Reply::from(reduced_chunk_graph::new(load, n as usize, fixed, sets, area))
}

// Moves an atom to a set if no cycle arises: how many distinct edges then appear and vanish, and how many other chunks
// its chunk then reaches.
pub fn nidskalm_reduced_chunk_graph_try_move(
    load: &Load,
    n: u64,
    fixed: &[u32],
    area: &mut [u32],
    atom: u32,
    bits: &[u64],
) -> MoveReply
    ensures value { result ≡ try_reply (calls.try_move (lent_by load.now) fixed.now n area.old atom bits.now).answer }
    ensures area_after { area.new ≡ (calls.try_move (lent_by load.now) fixed.now n area.old atom bits.now).area }
{
    MoveReply::from(reduced_chunk_graph::try_move(load, n as usize, fixed, area, atom, bits))
}

// An atom's set.
pub fn nidskalm_reduced_chunk_graph_atom_set(
    load: &Load,
    n: u64,
    fixed: &[u32],
    area: &[u32],
    atom: u32,
) -> SetReply
    ensures { result ≡ set_reply (calls.asked (lent_by load.now) fixed.now n area.now (ledger.atom_set atom)) }
{
    SetReply::from(reduced_chunk_graph::atom_set(load, n as usize, fixed, area, atom))
}

// A set's atom count.
pub fn nidskalm_reduced_chunk_graph_atom_count(
    load: &Load,
    n: u64,
    fixed: &[u32],
    area: &[u32],
    bits: &[u64],
) -> Reply
    ensures { result ≡ move_reply (calls.asked (lent_by load.now) fixed.now n area.now (ledger.atom_count bits.now)) }
{
    Reply::from(reduced_chunk_graph::atom_count(load, n as usize, fixed, area, bits))
}

// The multiplicity of the edge from one set to another.
pub fn nidskalm_reduced_chunk_graph_multiplicity(
    load: &Load,
    n: u64,
    fixed: &[u32],
    area: &[u32],
    from: &[u64],
    to: &[u64],
) -> Reply
    ensures { result ≡ move_reply (calls.asked (lent_by load.now) fixed.now n area.now (ledger.multiplicity from.now to.now)) }
{
    Reply::from(reduced_chunk_graph::multiplicity(load, n as usize, fixed, area, from, to))
}

// The number of distinct edges.
pub fn nidskalm_reduced_chunk_graph_edge_count(
    load: &Load,
    n: u64,
    fixed: &[u32],
    area: &[u32],
) -> Reply
    ensures { result ≡ move_reply (calls.asked (lent_by load.now) fixed.now n area.now ledger.edge_count) }
{
    Reply::from(reduced_chunk_graph::edge_count(load, n as usize, fixed, area))
}

// The number of chunks: sets that have an atom.
pub fn nidskalm_reduced_chunk_graph_chunk_count(
    load: &Load,
    n: u64,
    fixed: &[u32],
    area: &[u32],
) -> Reply
    ensures { result ≡ move_reply (calls.asked (lent_by load.now) fixed.now n area.now ledger.chunk_count) }
{
    Reply::from(reduced_chunk_graph::chunk_count(load, n as usize, fixed, area))
}

// The k-th edge, from 0, by rising source set, then target set.
pub fn nidskalm_reduced_chunk_graph_edge_at(
    load: &Load,
    n: u64,
    fixed: &[u32],
    area: &[u32],
    k: u64,
) -> EdgeReply
    ensures { result ≡ edge_reply (calls.asked (lent_by load.now) fixed.now n area.now (ledger.edge_at k)) }
{
    EdgeReply::from(reduced_chunk_graph::edge_at(load, n as usize, fixed, area, k))
}

// Ranks the placements of two areas: 0 where the first comes before the second, 1 where they are equal, 2 where it comes after.
pub fn nidskalm_reduced_chunk_graph_rank(
    load: &Load,
    n: u64,
    fixed: &[u32],
    first: &[u32],
    second: &[u32],
) -> Reply
    ensures { result ≡ move_reply (ranking (lent_by load.now) fixed.now n first.now second.now) }
{
    Reply::from(reduced_chunk_graph::rank(load, n as usize, fixed, first, second))
}

// Whether there is a cycle, by the book's search: 0 where there is none, 1 where there is one.
pub fn nidskalm_reduced_chunk_graph_has_cycle(
    load: &Load,
    n: u64,
    fixed: &[u32],
    area: &[u32],
) -> Reply
    ensures { result ≡ move_reply (calls.asked (lent_by load.now) fixed.now n area.now ledger.has_cycle) }
{
    Reply::from(reduced_chunk_graph::has_cycle(load, n as usize, fixed, area))
}

// The chunks to fetch for an entry bit, each behind all that its edges lead to, by their lowest atoms: how many there are.
pub fn nidskalm_reduced_chunk_graph_start_order(
    load: &Load,
    n: u64,
    fixed: &[u32],
    area: &[u32],
    bit: u64,
    chunks: &mut [u32],
) -> Reply
    ensures value { result ≡ move_reply (started (lent_by load.now) fixed.now n area.now bit chunks.old).answer }
    ensures chunks_after { chunks.new ≡ (started (lent_by load.now) fixed.now n area.now bit chunks.old).chunks }
{
    Reply::from(start_order::start_order(load, n as usize, fixed, area, bit, chunks))
}

// For every atom and every occupied set other than its own, how many moves would be accepted, rejected, or refused as the atom is fixed.
pub fn nidskalm_reduced_chunk_graph_freedom(
    load: &Load,
    n: u64,
    fixed: &[u32],
    area: &[u32],
) -> FreedomReply
    ensures { result ≡ freedom_reply (told (lent_by load.now) fixed.now n area.now) }
{
    FreedomReply::from(plan_freedom::freedom(load, n as usize, fixed, area))
}
