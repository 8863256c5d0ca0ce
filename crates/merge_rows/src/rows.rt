// The row that refuses a call, if one does.
ghost use Rattle.std.specs.Prelude.{◌≡◌, ◌&&◌, eqb, leb};
ghost use Rattle.refusals.specs.Rows.{row_of};
ghost use Rattle.entry_set.specs.Sets.{number};
ghost use Rattle.merge_state.specs.State.{None, chunk_of};
ghost use Rattle.merge_state.specs.Named.{named};
ghost use Rattle.merge_state.specs.Table.{init_module_assignment, add_module_to_chunk, calc_chunk_dependencies, would_create_circular_dependency, is_reachable, pass};
ghost use Rattle.merge_area.specs.Layout.{cell, head};
ghost use Rattle.merge_area.specs.Read.{sets-in};
ghost use Rattle.merge_area.specs.Calls.{refusal};

use crate::checks::{
    are_bad_starts, count_candidates, has_misfit, is_full, is_other_length, is_unmade,
    lacks_numbers, some_gone,
};
use entry_set::EntrySet;
use merge_area::places::{INITIAL, MADE};
use merge_area::{Area, standing_row};
use merge_state::{ChunkIdx, ModuleIdx, Sizes};
use refusals::Refusal;

// The chunk named with a set.
// stays: `Area::chunk_of_set` promises the same, and what is public isn't taken away.
pub fn find_chunk(area: &Area, set: EntrySet) -> Option<ChunkIdx>
    ensures { result ≡ named (chunk_of (number set) (sets-in area.now.sizes area.now.numbers.now)) }
{
    area.chunk_of_set(set)
}

// A chunk must be made for a set, and C are made.
fn lacks_chunk(area: &Area, set: EntrySet) -> bool
    ensures { result ≡ eqb (chunk_of (number set) (sets-in area.now.sizes area.now.numbers.now)) None && leb area.now.sizes.chunks (cell area.now.numbers.now (head area.now.sizes 1)) }
{
    find_chunk(area, set).is_none() && area.sizes.chunks <= area.header(MADE) as usize
}

// stays: sizes and area come one by one, in the rows below, as C lends them: an Area they are once rows 14, 15 and 21 don't fit.

// The row of `init_module_assignment`.
pub fn init_row(
    sizes: Sizes,
    area: &[u32],
    m: ModuleIdx,
    bits: &[u64],
    effects: &[u32],
) -> Result<(), Refusal>
    ensures { row_of result ≡ refusal sizes area.now (init_module_assignment m.0 bits.now effects.now) }
{
    let area = standing_row(sizes, false, effects.len() != sizes.modules, area)?;
    if sizes.modules <= m.0 as usize || !entry_set::is_legal(bits, sizes.bits) {
        return Err(Refusal::MergeIndex);
    }
    let lacks = lacks_chunk(&area, EntrySet::from_list(bits));
    let full = is_full(&area);
    if lacks {
        return Err(Refusal::NoRoomForChunk);
    }
    if full {
        return Err(Refusal::NoRoomForEntry);
    }
    Ok(())
}

// The row of `add_module_to_chunk`.
pub fn add_row(
    sizes: Sizes,
    area: &[u32],
    m: ModuleIdx,
    x: ChunkIdx,
    effects: &[u32],
) -> Result<(), Refusal>
    ensures { row_of result ≡ refusal sizes area.now (add_module_to_chunk m.0 x.0 effects.now) }
{
    let area = standing_row(sizes, false, effects.len() != sizes.modules, area)?;
    if sizes.modules <= m.0 as usize || is_unmade(&area, x) {
        return Err(Refusal::MergeIndex);
    }
    if is_full(&area) {
        return Err(Refusal::NoRoomForEntry);
    }
    Ok(())
}

// The row of `calc_chunk_dependencies`.
pub fn calc_row(
    sizes: Sizes,
    area: &[u32],
    starts: &[u32],
    dependencies: &[u32],
) -> Result<(), Refusal>
    ensures { row_of result ≡ refusal sizes area.now (calc_chunk_dependencies starts.now dependencies.now) }
{
    let d = dependencies.len();
    let bad = are_bad_starts(sizes.modules, starts, d);
    standing_row(sizes, 8192 < d, bad, area)?;
    if has_misfit(dependencies, sizes.modules, false) {
        return Err(Refusal::MergeIndex);
    }
    Ok(())
}

// The row of `would_create_circular_dependency` of one and other (source and target), and of `merge_chunk_dependencies` of one and other (target and source).
pub fn pair_row(sizes: Sizes, area: &[u32], one: ChunkIdx, other: ChunkIdx) -> Result<(), Refusal>
    ensures { row_of result ≡ refusal sizes area.now (would_create_circular_dependency one.0 other.0) }
{
    let area = standing_row(sizes, false, false, area)?;
    if is_unmade(&area, one) || is_unmade(&area, other) {
        return Err(Refusal::MergeIndex);
    }
    if one == other {
        return Err(Refusal::SourceIsTarget);
    }
    if area.is_gone(one.0 as usize) || area.is_gone(other.0 as usize) {
        return Err(Refusal::MergedAway);
    }
    Ok(())
}

// The row of `is_reachable`.
pub fn reach_row(sizes: Sizes, area: &[u32], from: ChunkIdx, to: ChunkIdx) -> Result<(), Refusal>
    ensures { row_of result ≡ refusal sizes area.now (is_reachable from.0 to.0) }
{
    let area = standing_row(sizes, false, false, area)?;
    if is_unmade(&area, from) || is_unmade(&area, to) {
        return Err(Refusal::MergeIndex);
    }
    Ok(())
}

// The row of the pass.
pub fn pass_row(
    sizes: Sizes,
    area: &[u32],
    proposals: &[u32],
    bars: &[u32],
    kinds: &[u32],
    numbers: &[u32],
) -> Result<(), Refusal>
    ensures { row_of result ≡ refusal sizes area.now (pass proposals.now bars.now kinds.now numbers.now) }
{
    let area = standing_row(sizes, false, false, area)?; // before the pass's own lists
    let n = count_candidates(&area);
    if is_other_length(n, proposals.len(), bars.len(), kinds.len(), numbers.len()) {
        return Err(Refusal::MergeLists);
    }
    let initial = area.header(INITIAL) as usize;
    if has_misfit(proposals, initial, true) {
        return Err(Refusal::MergeIndex);
    }
    if some_gone(&area, proposals) {
        return Err(Refusal::MergedAway);
    }
    if lacks_numbers(&area, n) {
        return Err(Refusal::NoRoomForChunk);
    }
    Ok(())
}
