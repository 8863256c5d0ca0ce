// The merge graph's calls: the methods of ChunkOptimizationGraph and the pass that commits its merges.
#![tactic(auto)]

mod load; // load.rt: new

ghost use Rattle.merge_state.specs.Table.{init_module_assignment, add_module_to_chunk, register_chunk_graph_index, to_temp_idx, calc_chunk_dependencies, would_create_circular_dependency, is_reachable, merge_chunk_dependencies, pass};
ghost use Rattle.merge_area.specs.Calls.{Called, PassCalled};
ghost use Rattle.chunk_optimizer.specs.Answers.{done_told, temp_told, said_told, pass_told, assigned};

use entry_set::EntrySet;
pub use load::new;
use merge_area::places::{MADE, Places, USED};
use merge_area::{Area, standing_row};
use merge_rows::rows::{add_row, calc_row, find_chunk, init_row, pair_row, pass_row, reach_row};
use merge_state::{ChunkIdx, ModuleIdx, Sizes};
use refusals::Refusal;

// stays: sizes and area come one by one, here and in load.rt, as C lends them, and nothing is asked of them: no fact is there for a struct to keep.

// Lists a module with the chunk of its set, or with a new chunk that needs creation.
pub fn init_module_assignment(
    sizes: Sizes,
    area: &mut [u32],
    m: ModuleIdx,
    bits: &[u64],
    effects: &[u32],
) -> Result<(), Refusal>
    ensures { Called sizes area.old (init_module_assignment m.0 bits.now effects.now) (done_told result) area.new }
{
    init_row(sizes, area, m, bits, effects)?;
    let standing = Area {
        sizes,
        numbers: area,
    };
    let set = EntrySet::from_list(bits);
    let chunk = find_chunk(&standing, set);
    merge_writes::assign(sizes, area, m, chunk, set, effects[m.0 as usize] != 0);
    Ok(())
}

// Lists a module with a chunk.
pub fn add_module_to_chunk(
    sizes: Sizes,
    area: &mut [u32],
    m: ModuleIdx,
    chunk: ChunkIdx,
    effects: &[u32],
) -> Result<(), Refusal>
    ensures { Called sizes area.old (add_module_to_chunk m.0 chunk.0 effects.now) (done_told result) area.new }
{
    add_row(sizes, area, m, chunk, effects)?;
    merge_writes::append(sizes, area, m, chunk, effects[m.0 as usize] != 0);
    Ok(())
}

// Records the chunk of a key, in place of any that it has.
pub fn register_chunk_graph_index(
    sizes: Sizes,
    area: &mut [u32],
    key: ChunkIdx,
    chunk: ChunkIdx,
) -> Result<(), Refusal>
    ensures { Called sizes area.old (register_chunk_graph_index key.0 chunk.0) (done_told result) area.new }
{
    let made = standing_row(sizes, false, false, area)?.header(MADE);
    if sizes.chunks <= key.0 as usize {
        return Err(Refusal::MergeIndex);
    }
    if made <= chunk.0 {
        return Err(Refusal::MergeIndex);
    }
    merge_writes::register(sizes, area, key, chunk);
    Ok(())
}

// The chunk registered for a key.
pub fn to_temp_idx(sizes: Sizes, area: &[u32], key: ChunkIdx) -> Result<Option<ChunkIdx>, Refusal>
    ensures { Called sizes area.now (to_temp_idx key.0) (temp_told result) area.now }
{
    let places = standing_row(sizes, false, false, area)?.places();
    let k = key.0 as usize;
    if sizes.chunks <= k {
        return Ok(None);
    }
    Ok(ChunkIdx::named(area[places.key(k)]))
}

// Adds to each chunk's dependencies those that the module dependencies give.
pub fn calc_chunk_dependencies(
    sizes: Sizes,
    area: &mut [u32],
    starts: &[u32],
    dependencies: &[u32],
) -> Result<(), Refusal>
    ensures { Called sizes area.old (calc_chunk_dependencies starts.now dependencies.now) (done_told result) area.new }
{
    calc_row(sizes, area, starts, dependencies)?;
    let used = Places { sizes }.header(area, USED) as usize;
    merge_dependencies::calculate(sizes, area, starts, dependencies, used);
    Ok(())
}

// Whether source depends directly on target, or the two fused would lie on a cycle with another chunk; what was merged away isn't followed. Where
// merged chunks stand for their target: whether the two fused would lie on a cycle with another chunk, by the dependencies that count then.
// stays: it has the shape of is_reachable, for both are calls of the original; one of the two would take its row and its question as closures.
pub fn would_create_circular_dependency(
    sizes: Sizes,
    area: &[u32],
    source: ChunkIdx,
    target: ChunkIdx,
) -> Result<bool, Refusal>
    ensures { Called sizes area.now (would_create_circular_dependency source.0 target.0) (said_told result) area.now }
{
    pair_row(sizes, area, source, target)?;
    let standing = Area {
        sizes,
        numbers: area,
    };
    Ok(merge_questions::warns(&standing, source, target))
}

// Whether a chunk reaches another in one step or more.
pub fn is_reachable(
    sizes: Sizes,
    area: &[u32],
    from: ChunkIdx,
    to: ChunkIdx,
) -> Result<bool, Refusal>
    ensures { Called sizes area.now (is_reachable from.0 to.0) (said_told result) area.now }
{
    reach_row(sizes, area, from, to)?;
    let standing = Area {
        sizes,
        numbers: area,
    };
    Ok(merge_questions::reaches(&standing, from, to))
}

// The target takes over the source's dependencies and side effects.
pub fn merge_chunk_dependencies(
    sizes: Sizes,
    area: &mut [u32],
    target: ChunkIdx,
    source: ChunkIdx,
) -> Result<(), Refusal>
    ensures { Called sizes area.old (merge_chunk_dependencies target.0 source.0) (done_told result) area.new }
{
    pair_row(sizes, area, target, source)?;
    merge_dependencies::merge(sizes, area, target, source);
    Ok(())
}

// Each chunk that needs creation, in rising index, is merged into its proposal or created; its kind and number are written. How many there are.
pub fn pass(
    sizes: Sizes,
    area: &mut [u32],
    proposals: &[u32],
    bars: &[u32],
    kinds: &mut [u32],
    numbers: &mut [u32],
) -> Result<u32, Refusal>
    ensures { PassCalled sizes area.old (pass proposals.now bars.now kinds.old numbers.old) (kinds.old, numbers.old) (pass_told result (kinds.new, numbers.new)) (assigned result) area.new (kinds.new, numbers.new) }
{
    pass_row(sizes, area, proposals, bars, kinds, numbers)?;
    let n = kinds.len() as u32;
    merge_pass::commit(sizes, area, proposals, bars, kinds, numbers);
    Ok(n)
}
