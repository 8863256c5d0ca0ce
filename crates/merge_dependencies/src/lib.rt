// What `calc_chunk_dependencies` and `merge_chunk_dependencies` write: the dependency flags, the target's side effects and, in the mode, the merge.
#![tactic(auto)]

ghost use Rattle.std.specs.Prelude.{◌≡◌, ◌+◌, ◌*◌, ◌<◌, length, get_or, set};
ghost use Rattle.merge_area.specs.Writes.{link, linked, calc_area, union_cell, merged_rows, absorb_area, merge_area};
ghost use Rattle.merge_laws.specs.Can.{CanLink, CanLinked, CanCalc, CanMerge, CanMergeArea};

use merge_area::places::{MODE, Places};
use merge_state::{ChunkIdx, NONE, Sizes};
use merge_writes::or_flag;

// stays: sizes, and the area that is written, as in merge_writes.
// stays: the flags are a square of u32, and chunks and modules are u32, in the area that C lends.

// Chunk x depends on chunk y, if y isn't NONE nor x.
#[tactic(auto, unfolding(merge_area::specs::Writes::link))]
fn add_link(sizes: Sizes, area: &mut [u32], x: u32, y: u32)
    requires { CanLink sizes area.old x y }
    ensures { area.new ≡ link sizes area.old x y }
{
    if y != NONE && x != y {
        let at = x as usize * sizes.chunks + y as usize;
        area[at] = 1;
    }
}

// Chunk x depends on the chunks of the dependencies.
fn add_links(sizes: Sizes, area: &mut [u32], x: u32, dependencies: &[u32])
    requires { CanLinked sizes area.old dependencies.now x 0 (length dependencies.now) }
    ensures { area.new ≡ linked sizes dependencies.now x 0 area.old (length dependencies.now) }
{
    let places = Places { sizes };
    for &m in dependencies {
        let y = area[places.home(m as usize)];
        add_link(sizes, area, x, y);
    }
}

// Each listed module's chunk depends on the chunks of the module's dependencies.
// stays: starts beside dependencies, as C lends them to the call: a struct of them would be made for this call and that of its row: no plainer.
pub fn calculate(sizes: Sizes, area: &mut [u32], starts: &[u32], dependencies: &[u32], used: usize)
    requires { CanCalc sizes area.old starts.now dependencies.now used }
    ensures { area.new ≡ calc_area sizes starts.now dependencies.now area.old used }
{
    let places = Places { sizes };
    for i in 0..used {
        let m = area[places.entry_module(i)] as usize;
        let x = area[places.entry_chunk(i)];
        let from = starts[m] as usize;
        let end = starts[m + 1] as usize;
        add_links(sizes, area, x, &dependencies[from..end]);
    }
}

// One number of the union of two rows, without the target itself.
#[tactic(auto, unfolding(merge_area::specs::Writes::union_cell))]
fn union_of(a: u32, b: u32, y: usize, target: usize) -> u32
    ensures { result ≡ union_cell a b y target }
{
    u32::from(y != target && (a != 0 || b != 0))
}

// Number y of both rows.
// stays: two indices into one list. Two rows are lent at once only by splitting it, at a place that depends on which row is lower: no plainer.
fn merge_cell(flags: &mut [u32], c: usize, target: usize, source: usize, y: usize)
    requires { (target * c + y < length flags.old) × (source * c + y < length flags.old) }
    ensures { flags.new ≡ set (set flags.old (target * c + y) (union_cell (get_or flags.old (target * c + y) 0) (get_or flags.old (source * c + y) 0) y target)) (source * c + y) 0 }
{
    let v = union_of(flags[target * c + y], flags[source * c + y], y, target);
    flags[target * c + y] = v;
    flags[source * c + y] = 0;
}

// The target's row becomes the union without the target, the source's row empties.
fn merge_rows(flags: &mut [u32], c: usize, target: usize, source: usize)
    requires { CanMerge flags.old c target source }
    ensures { flags.new ≡ merged_rows flags.old c target source }
{
    for y in 0..c {
        merge_cell(flags, c, target, source, y);
    }
}

// The two rows, and the target's side effects.
#[tactic(auto, unfolding(merge_area::specs::Writes::absorb_area))]
fn absorb(sizes: Sizes, area: &mut [u32], target: ChunkIdx, source: ChunkIdx)
    requires { CanMergeArea sizes area.old target.0 source.0 }
    ensures { area.new ≡ absorb_area sizes area.old target.0 source.0 }
{
    let places = Places { sizes };
    let kept = places.side(target.0 as usize);
    let taken = places.side(source.0 as usize);
    let effects = or_flag(area[kept], area[taken] != 0);
    merge_rows(area, sizes.chunks, target.0 as usize, source.0 as usize);
    area[kept] = effects;
}

// The target takes over the source's dependencies and side effects. Where merged chunks stand for their target, the merge is recorded.
#[tactic(auto, unfolding(merge_area::specs::Writes::merge_area, merge_area::specs::Writes::record_area, merge_area::specs::Read::mode_in))]
pub fn merge(sizes: Sizes, area: &mut [u32], target: ChunkIdx, source: ChunkIdx)
    requires { CanMergeArea sizes area.old target.0 source.0 }
    ensures { area.new ≡ merge_area sizes area.old target.0 source.0 }
{
    absorb(sizes, area, target, source);
    let places = Places { sizes };
    if places.header(area, MODE) != 0 {
        area[places.into(source.0 as usize)] = target.0;
    }
}
