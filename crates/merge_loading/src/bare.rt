// The area before the list entries.
ghost use Rattle.std.specs.Prelude.{◌≡◌, ◌+◌, ◌*◌, ◌^◌, ◌≤◌, ◌<◌, length, set};
ghost use Rattle.graphs.specs.Count.{ind};
ghost use Rattle.graphs.specs.Tab.{tab};
ghost use Rattle.layout.specs.Patch.{patch};
ghost use Rattle.entry_set.specs.Sets.{number};
ghost use Rattle.entry_set.specs.Lanes.{set_lanes};
ghost use Rattle.merge_area.specs.Layout.{room, set_place, set_chunk};
ghost use Rattle.merge_loading.specs.Loading.{mode_area, first_key, cleared_area, headed_area, named_area, bare_area};
ghost use Rattle.merge_loading.specs.Bare.{CanName};

use crate::Loading;
use entry_set::{EntrySet, set_width};
use layout::fill_with;
use merge_area::places::{CREATED, INITIAL, MADE, MODE, Places, SETS, USED};
use merge_state::{NONE, Sizes};

// stays: sizes or places, and the area that is written, as in merge_writes: so each asks that the area is as long as they say.
// stays: keys, chunks and the header's numbers are u32 in the area that C lends.

// The mode, and no merge.
#[tactic(auto, unfolding(crate::specs::Loading::mode_area))]
pub fn write_mode(places: Places, area: &mut [u32], follows_merges: bool)
    requires { room places.sizes ≤ length area.old }
    ensures { area.new ≡ mode_area places.sizes (ind follows_merges) area.old }
{
    fill_with(area, places.into(0), places.sizes.chunks, NONE);
    area[places.head(MODE)] = u32::from(follows_merges);
}

// The chunk first registered for key k: k itself where that is an initial chunk, else NONE.
fn key_of(k: usize, initial: usize) -> u32
    requires { k < 2 ^ 32 }
    ensures { result ≡ first_key initial k }
{
    if k < initial { k as u32 } else { NONE }
}

// The c keys from `at` on.
fn write_keys(area: &mut [u32], at: usize, c: usize, initial: usize)
    requires { (at + c ≤ length area.old) × (c ≤ 1024) }
    ensures { area.new ≡ patch at (tab (first_key initial) c) area.old }
{
    for k in 0..c {
        area[at + k] = key_of(k, initial);
    }
}

// No dependency, side effect or need of creation, no module's chunk, and the first keys.
#[tactic(auto, unfolding(crate::specs::Loading::cleared_area))]
fn clear(places: Places, area: &mut [u32], initial: usize)
    requires { room places.sizes ≤ length area.old }
    ensures { area.new ≡ cleared_area places.sizes initial area.old }
{
    let sizes = places.sizes;
    fill_with(area, 0, sizes.chunks * sizes.chunks, 0);
    fill_with(area, places.side(0), 2 * sizes.chunks, 0);
    write_keys(area, places.key(0), sizes.chunks, initial);
    fill_with(area, places.home(0), sizes.modules, NONE);
}

// The header.
#[tactic(auto, unfolding(crate::specs::Loading::headed_area))]
fn write_header(places: Places, area: &mut [u32], initial: u32, pairs: u32)
    requires { room places.sizes ≤ length area.old }
    ensures { area.new ≡ headed_area places.sizes initial pairs area.old }
{
    let head = places.head(0);
    area[head + INITIAL] = initial;
    area[head + MADE] = initial;
    area[head + CREATED] = 0;
    area[head + SETS] = pairs;
    area[head + USED] = 0;
}

// Pair k.
fn write_pair(places: Places, area: &mut [u32], k: usize, named: EntrySet, chunk: u32)
    requires { (room places.sizes ≤ length area.old) × (k < places.sizes.chunks) }
    ensures { area.new ≡ set (set_lanes area.old (set_place places.sizes k) 1 (number named)) (set_chunk places.sizes k) chunk }
{
    named.write_lanes(area, places.set(k), 1);
    area[places.set_chunk(k)] = chunk;
}

// All pairs.
fn write_pairs(places: Places, area: &mut [u32], loading: &Loading)
    requires { CanName places.sizes loading.now.sets.now loading.now.chunks.now area.old }
    ensures { area.new ≡ named_area places.sizes loading.now.sets.now loading.now.chunks.now area.old (length loading.now.chunks.now) }
{
    let w = set_width(places.sizes.bits);
    for (k, &chunk) in loading.chunks.iter().enumerate() {
        write_pair(places, area, k, EntrySet::at(loading.sets, w, k), chunk);
    }
}

// All but the list entries.
#[tactic(auto, unfolding(crate::specs::Loading::bare_area))]
pub fn write_bare(sizes: Sizes, area: &mut [u32], loading: &Loading)
    requires { CanName sizes loading.now.sets.now loading.now.chunks.now area.old × (loading.now.initial ≤ sizes.chunks) }
    ensures { area.new ≡ bare_area sizes loading.now.initial loading.now.sets.now loading.now.chunks.now area.old }
{
    let places = Places { sizes };
    clear(places, area, loading.initial);
    write_header(
        places,
        area,
        loading.initial as u32,
        loading.chunks.len() as u32,
    );
    write_pairs(places, area, loading);
}
