// What a call writes, the dependencies apart (crates/merge_dependencies).
#![tactic(auto)]

ghost use Rattle.std.specs.Prelude.{◌≡◌, ◌||◌, ◌<◌, ◌≤◌, length};
ghost use Rattle.graphs.specs.Count.{ind};
ghost use Rattle.entry_set.specs.Sets.{number};
ghost use Rattle.merge_state.specs.State.{yes};
ghost use Rattle.merge_state.specs.Named.{number_of, Proper};
ghost use Rattle.merge_area.specs.Layout.{room};
ghost use Rattle.merge_area.specs.Writes.{register_area, append_area, open_area, init_area, create_area};
ghost use Rattle.merge_area.specs.Within.{Within};
ghost use Rattle.merge_laws.specs.Can.{CanAppend, CanOpen, CanAssign, CanCreate};

use entry_set::EntrySet;
use merge_area::places::{CREATED, INITIAL, MADE, Places, SETS, USED};
use merge_state::{ChunkIdx, ModuleIdx, Sizes};

// stays: sizes, and the area that is written. A struct of the two, with a `&mut`, was tried for `register` and `append`: each contract must then say,
// beside what is written, that the sizes and the loan stay, and `append` reads each place before its store, and isn't proved by the check alone: no plainer.
// stays: chunks, modules, flags and the header's numbers are u32 in the area that C lends.

// Chunk x is registered for key k.
#[tactic(auto, unfolding(merge_area::specs::Writes::register_area))]
pub fn register(sizes: Sizes, area: &mut [u32], k: ChunkIdx, x: ChunkIdx)
    requires { Within sizes × (room sizes ≤ length area.old) × (k.0 < sizes.chunks) }
    ensures { area.new ≡ register_area sizes area.old k.0 x.0 }
{
    let places = Places { sizes };
    area[places.key(k.0 as usize)] = x.0;
}

// 1 where v isn't 0 or e holds.
pub fn or_flag(v: u32, e: bool) -> u32
    ensures { result ≡ ind (yes v || e) }
{
    u32::from(v != 0 || e)
}

// Module m is listed with chunk x, and e tells its side effects.
#[tactic(auto, unfolding(merge_area::specs::Writes::append_area))]
pub fn append(sizes: Sizes, area: &mut [u32], m: ModuleIdx, x: ChunkIdx, e: bool)
    requires { CanAppend sizes area.old x.0 m.0 }
    ensures { area.new ≡ append_area sizes area.old x.0 m.0 e }
{
    let places = Places { sizes };
    let n = places.header(area, USED);
    let side = places.side(x.0 as usize);
    let effects = or_flag(area[side], e);
    area[places.entry_chunk(n as usize)] = x.0;
    area[places.entry_module(n as usize)] = m.0;
    area[places.head(USED)] = n + 1;
    area[places.home(m.0 as usize)] = x.0;
    area[side] = effects;
}

// A chunk that needs creation is made, named with a set.
#[tactic(auto, unfolding(merge_area::specs::Writes::open_area))]
pub fn open(sizes: Sizes, area: &mut [u32], set: EntrySet)
    requires { CanOpen sizes area.old }
    ensures { area.new ≡ open_area sizes area.old (number set) }
{
    let places = Places { sizes };
    let n = places.header(area, MADE);
    let s = places.header(area, SETS);
    set.write_lanes(area, places.set(s as usize), 1);
    area[places.set_chunk(s as usize)] = n;
    area[places.head(SETS)] = s + 1;
    area[places.side(n as usize)] = 0;
    area[places.need(n as usize)] = 1;
    area[places.head(MADE)] = n + 1;
}

// Module m is listed with a chunk, or with a new one where there is none.
#[tactic(auto, using(merge_laws::specs::Keeps::init_old, merge_laws::specs::Keeps::init_new, merge_laws::specs::Keeps::open_append))]
pub fn assign(
    sizes: Sizes,
    area: &mut [u32],
    m: ModuleIdx,
    chunk: Option<ChunkIdx>,
    set: EntrySet,
    e: bool,
)
    requires { CanAssign sizes area.old m.0 (number_of chunk) × Proper chunk }
    ensures { area.new ≡ init_area sizes area.old m.0 (number set) e (number_of chunk) }
{
    match chunk {
        Some(x) => append(sizes, area, m, x, e),
        None => {
            let n = Places { sizes }.header(area, MADE);
            open(sizes, area, set);
            append(sizes, area, m, ChunkIdx(n), e);
        }
    }
}

// Chunk x is registered for the next number.
#[tactic(auto, unfolding(merge_area::specs::Writes::create_area))]
pub fn create(sizes: Sizes, area: &mut [u32], x: ChunkIdx)
    requires { CanCreate sizes area.old }
    ensures { area.new ≡ create_area sizes area.old x.0 }
{
    let places = Places { sizes };
    let created = places.header(area, CREATED);
    let number = places.header(area, INITIAL) as usize + created as usize;
    area[places.key(number)] = x.0;
    area[places.head(CREATED)] = created + 1;
}
