// The list entries of a loading, and the whole.
ghost use Rattle.std.specs.Prelude.{◌≡◌, length};
ghost use Rattle.merge_loading.specs.Loading.{lent_by, listed_area, loaded_area};
ghost use Rattle.merge_loading.specs.Listing.{CanList, CanListWith, with_area};
ghost use Rattle.merge_loading.specs.Rows.{CanLoad};

use crate::Loading;
use crate::bare::{write_bare, write_mode};
use merge_area::places::Places;
use merge_state::{ChunkIdx, ModuleIdx, Sizes};

// stays: sizes, and the area that is written, as in merge_writes.

// Each module of a list is listed with the chunk.
#[tactic(auto, unfolding(crate::specs::Listing::with_area))]
fn list_with(sizes: Sizes, area: &mut [u32], chunk: ChunkIdx, modules: &[u32], effects: &[u32])
    requires { CanListWith sizes chunk.0 modules.now effects.now area.old }
    ensures { area.new ≡ with_area sizes chunk.0 modules.now effects.now area.old (length modules.now) }
{
    for &m in modules {
        merge_writes::append(sizes, area, ModuleIdx(m), chunk, effects[m as usize] != 0);
    }
}

// Each entry of the module list is listed with its chunk.
#[tactic(auto, using(crate::proofs::Chunks::first_listed, crate::proofs::Chunks::can_part, crate::proofs::Chunks::can_list_with, crate::proofs::Chunks::next_listed, crate::specs::Listing::list_done))]
fn list_modules(sizes: Sizes, area: &mut [u32], loading: &Loading)
    requires { CanList sizes loading.now.initial loading.now.starts.now loading.now.modules.now loading.now.effects.now area.old }
    ensures { area.new ≡ listed_area sizes loading.now.initial loading.now.starts.now loading.now.modules.now loading.now.effects.now area.old (length loading.now.modules.now) }
{
    for x in 0..loading.initial {
        let modules = loading.modules_of(x);
        list_with(sizes, area, ChunkIdx(x as u32), modules, loading.effects);
    }
}

// The area of a loading that no row refuses.
#[tactic(auto, unfolding(crate::specs::Loading::loaded_area))]
pub fn load(sizes: Sizes, area: &mut [u32], loading: &Loading)
    requires { CanLoad sizes (lent_by loading.now) area.old }
    ensures { area.new ≡ loaded_area sizes (lent_by loading.now) area.old }
{
    write_mode(Places { sizes }, area, loading.follows_merges);
    write_bare(sizes, area, loading);
    list_modules(sizes, area, loading);
}
