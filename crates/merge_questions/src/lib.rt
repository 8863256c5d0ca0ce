// The two questions about an area's graph, whether or not merged chunks stand for their target there.
#![tactic(auto)]

ghost use Rattle.std.specs.Prelude.{◌≡◌, ◌<◌, length, true};
ghost use Rattle.merge_state.specs.Methods.{warn, reachable};
ghost use Rattle.merge_area.specs.Layout.{cell, head};
ghost use Rattle.merge_area.specs.Read.{read, mode_in};
ghost use Rattle.merge_laws.specs.Rows.{Stood};
ghost use Rattle.merge_questions.specs.Lent.{FlagsOf, EndsOf};

use graph_walks::FlagRows;
use graph_walks::end_rows::EndRows;
use merge_area::Area;
use merge_area::merges::find_ends;
use merge_area::places::{MADE, Places};
use merge_state::{ChunkIdx, Sizes};

// stays: local arrays, as memory is fixed and nothing is on the heap.

// The flags of the chunks that are made.
fn flag_rows<'a>(area: &Area<'a>) -> FlagRows<'a>
    ensures { FlagsOf area.now.sizes area.now.numbers.now result }
{
    FlagRows {
        flags: area.numbers,
        stride: area.sizes.chunks,
        count: area.header(MADE) as usize,
    }
}

// The same with the ends of merges, and the two chunks that are asked about.
// stays: sizes and numbers, not an Area: with one the proof doesn't close, since the ends are lent for a shorter time than the area (tried).
fn end_rows<'a>(
    sizes: Sizes,
    numbers: &'a [u32],
    source: ChunkIdx,
    target: ChunkIdx,
    ends: &'a mut [u32],
) -> EndRows<'a>
    requires stood { Stood sizes numbers.now × (mode_in sizes numbers.now ≡ true) × (length ends.old ≡ 1024) }
    requires pair { (source.0 < cell numbers.now (head sizes 1)) × (target.0 < cell numbers.now (head sizes 1)) }
    ensures { EndsOf sizes numbers.now source.0 target.0 result }
{
    let count = Places { sizes }.header(numbers, MADE) as usize;
    let ends = &mut ends[..count];
    find_ends(sizes, numbers, ends);
    EndRows {
        flags: numbers,
        stride: sizes.chunks,
        count,
        ends,
        source: source.0 as usize,
        target: target.0 as usize,
    }
}

// The warning about merging source into target.
pub fn warns(area: &Area, source: ChunkIdx, target: ChunkIdx) -> bool
    requires { Stood area.now.sizes area.now.numbers.now × (source.0 < cell area.now.numbers.now (head area.now.sizes 1)) × (target.0 < cell area.now.numbers.now (head area.now.sizes 1)) }
    ensures { result ≡ warn (read area.now.sizes area.now.numbers.now) source.0 target.0 }
{
    if area.is_mode() {
        let mut ends = [0u32; 1024];
        let rows = end_rows(area.sizes, area.numbers, source, target, &mut ends);
        merge_warning::counted::warn_counted(&rows)
    } else {
        let rows = flag_rows(area);
        merge_warning::warn(&rows, source.0 as usize, target.0 as usize)
    }
}

// `from` reaches `to` in one step or more.
// stays: the shape of `warns`, as two questions: one with the answer as a parameter would be no shorter than the two.
pub fn reaches(area: &Area, from: ChunkIdx, to: ChunkIdx) -> bool
    requires { Stood area.now.sizes area.now.numbers.now × (from.0 < cell area.now.numbers.now (head area.now.sizes 1)) × (to.0 < cell area.now.numbers.now (head area.now.sizes 1)) }
    ensures { result ≡ reachable (read area.now.sizes area.now.numbers.now) from.0 to.0 }
{
    if area.is_mode() {
        let mut ends = [0u32; 1024];
        let rows = end_rows(area.sizes, area.numbers, from, to, &mut ends);
        merge_warning::counted::reaches_counted(&rows)
    } else {
        let rows = flag_rows(area);
        merge_warning::reaches(&rows, from.0 as usize, to.0 as usize)
    }
}
