// The calls of the merge graph.
// stays: the C interface: its names, its numbers and its lists, one by one. The sizes and a loading are made of them here.
ghost use Rattle.std.specs.Prelude.{◌≡◌};
ghost use Rattle.merge_state.specs.Table.{init_module_assignment, add_module_to_chunk, register_chunk_graph_index, to_temp_idx, calc_chunk_dependencies, would_create_circular_dependency, is_reachable, merge_chunk_dependencies, pass};
ghost use Rattle.merge_area.specs.Calls.{step, lists_after};
ghost use Rattle.merge_loading.specs.Loading.{lent, load_step};
ghost use Rattle.nidskalm_replies.specs.Replies.{merge_reply};
ghost use Rattle.nidskalm.specs.Sized.{sized};

use merge_loading::Loading;
use merge_state::{ChunkIdx, ModuleIdx, Sizes};
use nidskalm_replies::Reply;

// The four sizes in one.
fn sizes(c: u64, m: u64, l: u64, e: u64) -> Sizes
    ensures { result ≡ sized c m l e }
{
    Sizes {
        chunks: c as usize,
        modules: m as usize,
        entries: l as usize,
        bits: e as usize,
    }
}

// Loads each initial chunk's modules, and pairs of a set and its chunk; where mode isn't 0, merged chunks stand for their target.
#[unsafe(no_mangle)]
pub extern "C" fn nidskalm_chunk_optimization_graph_new(
    c: u64,
    m: u64,
    l: u64,
    e: u64,
    initial: u64,
    mode: u32,
    starts: &[u32],
    modules: &[u32],
    sets: &[u64],
    chunks: &[u32],
    effects: &[u32],
    area: &mut [u32],
) -> Reply
    ensures value { result ≡ merge_reply (load_step (sized c m l e) (lent initial starts.now modules.now sets.now chunks.now effects.now mode) area.old).0 }
    ensures area_after { area.new ≡ (load_step (sized c m l e) (lent initial starts.now modules.now sets.now chunks.now effects.now mode) area.old).1 }
{
    let loading = Loading {
        initial: initial as usize,
        starts,
        modules,
        sets,
        chunks,
        effects,
        follows_merges: mode != 0,
    };
    nidskalm::merges::nidskalm_chunk_optimization_graph_new(sizes(c, m, l, e), area, &loading)
}

// Lists a module with the chunk of its set, or with a new chunk that needs creation.
#[unsafe(no_mangle)]
pub extern "C" fn nidskalm_chunk_optimization_graph_init_module_assignment(
    c: u64,
    m: u64,
    l: u64,
    e: u64,
    area: &mut [u32],
    idx: u32,
    bits: &[u64],
    effects: &[u32],
) -> Reply
    ensures value { result ≡ merge_reply (step (sized c m l e) area.old (init_module_assignment idx bits.now effects.now)).0 }
    ensures area_after { area.new ≡ (step (sized c m l e) area.old (init_module_assignment idx bits.now effects.now)).1 }
{
    nidskalm::merges::nidskalm_chunk_optimization_graph_init_module_assignment(
        sizes(c, m, l, e),
        area,
        ModuleIdx(idx),
        bits,
        effects,
    )
}

// Lists a module with a chunk.
#[unsafe(no_mangle)]
pub extern "C" fn nidskalm_chunk_optimization_graph_add_module_to_chunk(
    c: u64,
    m: u64,
    l: u64,
    e: u64,
    area: &mut [u32],
    idx: u32,
    chunk: u32,
    effects: &[u32],
) -> Reply
    ensures value { result ≡ merge_reply (step (sized c m l e) area.old (add_module_to_chunk idx chunk effects.now)).0 }
    ensures area_after { area.new ≡ (step (sized c m l e) area.old (add_module_to_chunk idx chunk effects.now)).1 }
{
    nidskalm::merges::nidskalm_chunk_optimization_graph_add_module_to_chunk(
        sizes(c, m, l, e),
        area,
        ModuleIdx(idx),
        ChunkIdx(chunk),
        effects,
    )
}

// Records the chunk of a key, in place of any that it has.
#[unsafe(no_mangle)]
pub extern "C" fn nidskalm_chunk_optimization_graph_register_chunk_graph_index(
    c: u64,
    m: u64,
    l: u64,
    e: u64,
    area: &mut [u32],
    key: u32,
    chunk: u32,
) -> Reply
    ensures value { result ≡ merge_reply (step (sized c m l e) area.old (register_chunk_graph_index key chunk)).0 }
    ensures area_after { area.new ≡ (step (sized c m l e) area.old (register_chunk_graph_index key chunk)).1 }
{
    nidskalm::merges::nidskalm_chunk_optimization_graph_register_chunk_graph_index(
        sizes(c, m, l, e),
        area,
        ChunkIdx(key),
        ChunkIdx(chunk),
    )
}

// The chunk registered for a key, or 4,294,967,295.
#[unsafe(no_mangle)]
pub extern "C" fn nidskalm_chunk_optimization_graph_to_temp_idx(
    c: u64,
    m: u64,
    l: u64,
    e: u64,
    area: &[u32],
    key: u32,
) -> Reply
    ensures { result ≡ merge_reply (step (sized c m l e) area.now (to_temp_idx key)).0 }
{
    nidskalm::merges::nidskalm_chunk_optimization_graph_to_temp_idx(
        sizes(c, m, l, e),
        area,
        ChunkIdx(key),
    )
}

// Adds to each chunk's dependencies those that the module dependencies give.
#[unsafe(no_mangle)]
pub extern "C" fn nidskalm_chunk_optimization_graph_calc_chunk_dependencies(
    c: u64,
    m: u64,
    l: u64,
    e: u64,
    area: &mut [u32],
    starts: &[u32],
    dependencies: &[u32],
) -> Reply
    ensures value { result ≡ merge_reply (step (sized c m l e) area.old (calc_chunk_dependencies starts.now dependencies.now)).0 }
    ensures area_after { area.new ≡ (step (sized c m l e) area.old (calc_chunk_dependencies starts.now dependencies.now)).1 }
{
    nidskalm::merges::nidskalm_chunk_optimization_graph_calc_chunk_dependencies(
        sizes(c, m, l, e),
        area,
        starts,
        dependencies,
    )
}

// 1 where source depends directly on target, or the two fused would lie on a cycle with another chunk, else 0.
#[unsafe(no_mangle)]
pub extern "C" fn nidskalm_chunk_optimization_graph_would_create_circular_dependency(
    c: u64,
    m: u64,
    l: u64,
    e: u64,
    area: &[u32],
    source: u32,
    target: u32,
) -> Reply
    ensures { result ≡ merge_reply (step (sized c m l e) area.now (would_create_circular_dependency source target)).0 }
{
    nidskalm::merges::nidskalm_chunk_optimization_graph_would_create_circular_dependency(
        sizes(c, m, l, e),
        area,
        ChunkIdx(source),
        ChunkIdx(target),
    )
}

// 1 where a chunk reaches another in one step or more, else 0.
#[unsafe(no_mangle)]
pub extern "C" fn nidskalm_chunk_optimization_graph_is_reachable(
    c: u64,
    m: u64,
    l: u64,
    e: u64,
    area: &[u32],
    from: u32,
    to: u32,
) -> Reply
    ensures { result ≡ merge_reply (step (sized c m l e) area.now (is_reachable from to)).0 }
{
    nidskalm::merges::nidskalm_chunk_optimization_graph_is_reachable(
        sizes(c, m, l, e),
        area,
        ChunkIdx(from),
        ChunkIdx(to),
    )
}

// The target takes over the source's dependencies and side effects.
#[unsafe(no_mangle)]
pub extern "C" fn nidskalm_chunk_optimization_graph_merge_chunk_dependencies(
    c: u64,
    m: u64,
    l: u64,
    e: u64,
    area: &mut [u32],
    target: u32,
    source: u32,
) -> Reply
    ensures value { result ≡ merge_reply (step (sized c m l e) area.old (merge_chunk_dependencies target source)).0 }
    ensures area_after { area.new ≡ (step (sized c m l e) area.old (merge_chunk_dependencies target source)).1 }
{
    nidskalm::merges::nidskalm_chunk_optimization_graph_merge_chunk_dependencies(
        sizes(c, m, l, e),
        area,
        ChunkIdx(target),
        ChunkIdx(source),
    )
}

// Decides about each chunk that needs creation, and writes its kind (0 merged, 1 created) and its number; the value is how many there are.
#[unsafe(no_mangle)]
pub extern "C" fn nidskalm_chunk_optimization_graph_pass(
    c: u64,
    m: u64,
    l: u64,
    e: u64,
    area: &mut [u32],
    proposals: &[u32],
    bars: &[u32],
    kinds: &mut [u32],
    numbers: &mut [u32],
) -> Reply
    ensures value { result ≡ merge_reply (step (sized c m l e) area.old (pass proposals.now bars.now kinds.old numbers.old)).0 }
    ensures area_after { area.new ≡ (step (sized c m l e) area.old (pass proposals.now bars.now kinds.old numbers.old)).1 }
    ensures numbers_after { (kinds.new, numbers.new) ≡ lists_after (step (sized c m l e) area.old (pass proposals.now bars.now kinds.old numbers.old)).0 (kinds.old, numbers.old) }
{
    nidskalm::merges::nidskalm_chunk_optimization_graph_pass(
        sizes(c, m, l, e),
        area,
        proposals,
        bars,
        kinds,
        numbers,
    )
}
