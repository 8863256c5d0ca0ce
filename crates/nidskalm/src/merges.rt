// The calls of the merge graph.
// stays: the C interface: a call takes what its export is lent, the sizes as a struct beside the area that is written, and asks nothing of it: no fact is there for a
// struct to keep.
ghost use Rattle.std.specs.Prelude.{◌≡◌};
ghost use Rattle.merge_state.specs.Table.{init_module_assignment, add_module_to_chunk, register_chunk_graph_index, to_temp_idx, calc_chunk_dependencies, would_create_circular_dependency, is_reachable, merge_chunk_dependencies, pass};
ghost use Rattle.merge_area.specs.Calls.{step, lists_after};
ghost use Rattle.merge_loading.specs.Loading.{lent_by, load_step};
ghost use Rattle.nidskalm_replies.specs.Replies.{merge_reply};

use merge_loading::Loading;
use merge_state::{ChunkIdx, ModuleIdx, Sizes};
use nidskalm_replies::Reply;

// Loads each initial chunk's modules, and pairs of a set and its chunk; the loading says whether merged chunks stand for their target.
pub fn nidskalm_chunk_optimization_graph_new(
    sizes: Sizes,
    area: &mut [u32],
    loading: &Loading,
) -> Reply
    ensures value { result ≡ merge_reply (load_step sizes (lent_by loading.now) area.old).0 }
    ensures area_after { area.new ≡ (load_step sizes (lent_by loading.now) area.old).1 }
{
    Reply::from(chunk_optimizer::new(sizes, area, loading))
}

// Lists a module with the chunk of its set, or with a new chunk that needs creation.
pub fn nidskalm_chunk_optimization_graph_init_module_assignment(
    sizes: Sizes,
    area: &mut [u32],
    idx: ModuleIdx,
    bits: &[u64],
    effects: &[u32],
) -> Reply
    ensures value { result ≡ merge_reply (step sizes area.old (init_module_assignment idx.0 bits.now effects.now)).0 }
    ensures area_after { area.new ≡ (step sizes area.old (init_module_assignment idx.0 bits.now effects.now)).1 }
{
    Reply::from(chunk_optimizer::init_module_assignment(sizes, area, idx, bits, effects))
}

// Lists a module with a chunk.
pub fn nidskalm_chunk_optimization_graph_add_module_to_chunk(
    sizes: Sizes,
    area: &mut [u32],
    idx: ModuleIdx,
    chunk: ChunkIdx,
    effects: &[u32],
) -> Reply
    ensures value { result ≡ merge_reply (step sizes area.old (add_module_to_chunk idx.0 chunk.0 effects.now)).0 }
    ensures area_after { area.new ≡ (step sizes area.old (add_module_to_chunk idx.0 chunk.0 effects.now)).1 }
{
    Reply::from(chunk_optimizer::add_module_to_chunk(sizes, area, idx, chunk, effects))
}

// Records the chunk of a key, in place of any that it has.
pub fn nidskalm_chunk_optimization_graph_register_chunk_graph_index(
    sizes: Sizes,
    area: &mut [u32],
    key: ChunkIdx,
    chunk: ChunkIdx,
) -> Reply
    ensures value { result ≡ merge_reply (step sizes area.old (register_chunk_graph_index key.0 chunk.0)).0 }
    ensures area_after { area.new ≡ (step sizes area.old (register_chunk_graph_index key.0 chunk.0)).1 }
{
    Reply::from(chunk_optimizer::register_chunk_graph_index(sizes, area, key, chunk))
}

// The chunk registered for a key, or 4,294,967,295.
pub fn nidskalm_chunk_optimization_graph_to_temp_idx(
    sizes: Sizes,
    area: &[u32],
    key: ChunkIdx,
) -> Reply
    ensures { result ≡ merge_reply (step sizes area.now (to_temp_idx key.0)).0 }
{
    Reply::from(chunk_optimizer::to_temp_idx(sizes, area, key))
}

// Adds to each chunk's dependencies those that the module dependencies give.
pub fn nidskalm_chunk_optimization_graph_calc_chunk_dependencies(
    sizes: Sizes,
    area: &mut [u32],
    starts: &[u32],
    dependencies: &[u32],
) -> Reply
    ensures value { result ≡ merge_reply (step sizes area.old (calc_chunk_dependencies starts.now dependencies.now)).0 }
    ensures area_after { area.new ≡ (step sizes area.old (calc_chunk_dependencies starts.now dependencies.now)).1 }
{
    Reply::from(chunk_optimizer::calc_chunk_dependencies(sizes, area, starts, dependencies))
}

// 1 where source depends directly on target, or the two fused would lie on a cycle with another chunk, else 0.
pub fn nidskalm_chunk_optimization_graph_would_create_circular_dependency(
    sizes: Sizes,
    area: &[u32],
    source: ChunkIdx,
    target: ChunkIdx,
) -> Reply
    ensures { result ≡ merge_reply (step sizes area.now (would_create_circular_dependency source.0 target.0)).0 }
{
    Reply::from(chunk_optimizer::would_create_circular_dependency(sizes, area, source, target))
}

// 1 where a chunk reaches another in one step or more, else 0.
pub fn nidskalm_chunk_optimization_graph_is_reachable(
    sizes: Sizes,
    area: &[u32],
    from: ChunkIdx,
    to: ChunkIdx,
) -> Reply
    ensures { result ≡ merge_reply (step sizes area.now (is_reachable from.0 to.0)).0 }
{
    Reply::from(chunk_optimizer::is_reachable(sizes, area, from, to))
}

// The target takes over the source's dependencies and side effects.
pub fn nidskalm_chunk_optimization_graph_merge_chunk_dependencies(
    sizes: Sizes,
    area: &mut [u32],
    target: ChunkIdx,
    source: ChunkIdx,
) -> Reply
    ensures value { result ≡ merge_reply (step sizes area.old (merge_chunk_dependencies target.0 source.0)).0 }
    ensures area_after { area.new ≡ (step sizes area.old (merge_chunk_dependencies target.0 source.0)).1 }
{
    Reply::from(chunk_optimizer::merge_chunk_dependencies(sizes, area, target, source))
}

// Decides about each chunk that needs creation, and writes its kind (0 merged, 1 created) and its number; the value is how many there are.
pub fn nidskalm_chunk_optimization_graph_pass(
    sizes: Sizes,
    area: &mut [u32],
    proposals: &[u32],
    bars: &[u32],
    kinds: &mut [u32],
    numbers: &mut [u32],
) -> Reply
    ensures value { result ≡ merge_reply (step sizes area.old (pass proposals.now bars.now kinds.old numbers.old)).0 }
    ensures area_after { area.new ≡ (step sizes area.old (pass proposals.now bars.now kinds.old numbers.old)).1 }
    ensures numbers_after { (kinds.new, numbers.new) ≡ lists_after (step sizes area.old (pass proposals.now bars.now kinds.old numbers.old)).0 (kinds.old, numbers.old) }
{
    Reply::from(chunk_optimizer::pass(sizes, area, proposals, bars, kinds, numbers))
}
