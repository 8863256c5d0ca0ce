// The merge area: its limits and length, its header, its sets, and whether an area and its sizes stand.
#![tactic(auto)]

pub mod merges; // merges.rt: recorded merges and their ends
pub mod places; // places.rt: where the numbers of the area stand

ghost use Rattle.std.specs.Prelude.{◌≡◌, false, ℕ, ◌+◌, ◌-◌, ◌*◌, ◌<◌, ◌≤◌, length, IfOk};
ghost use Rattle.refusals.specs.Rows.{row_of};
ghost use Rattle.graphs.specs.Lists.{some_below};
ghost use Rattle.entry_set.specs.Sets.{number, Holds};
ghost use Rattle.entry_set.specs.Lanes.{lanes};
ghost use Rattle.merge_state.specs.State.{chunk_of, misfit, pairs};
ghost use Rattle.merge_state.specs.Named.{named};
ghost use Rattle.merge_state.specs.Loading.{twice};
ghost use Rattle.merge_area.specs.Layout.{room, cell, head, set_place};
ghost use Rattle.merge_area.specs.Read.{named_set, sets-in};
ghost use Rattle.merge_area.specs.Consistent.{over, short, Faults, row_fault, flags_fault, head_fault, index_faults, out_of_range, body_fault, inconsistent};
ghost use Rattle.merge_area.specs.Calls.{standing};
ghost use Rattle.merge_area.specs.Within.{Headed, Tabled};

use crate::places::{INITIAL, MADE, Places, SETS, USED};
use entry_set::EntrySet;
use equal_sets::row_is_distinct;
use merge_state::{ChunkIdx, NONE, Sizes};
use refusals::Refusal;

// Row 14, as far as the sizes tell.
#[tactic(auto, unfolding(crate::specs::Consistent::over))]
pub fn over_limits(sizes: Sizes) -> bool
    ensures { result ≡ over sizes }
{
    sizes.chunks == 0
        || 1024 < sizes.chunks
        || 4096 < sizes.modules
        || 8192 < sizes.entries
        || 256 < sizes.bits
}

// Row 15, as far as the area's length tells.
#[tactic(auto, unfolding(crate::specs::Consistent::short))]
pub fn too_short(places: Places, area: &[u32]) -> bool
    ensures { result ≡ short places.sizes area.now }
{
    area.len() < places.room()
}

// The number isn't below top, nor NONE where that is allowed.
#[tactic(auto, unfolding(merge_state::specs::State::misfit))]
fn is_misfit(number: u32, top: usize, free: bool) -> bool
    ensures { result ≡ misfit top free number }
{
    top <= number as usize && !(free && number == NONE)
}

// How many of the n numbers from `at` on misfit.
// stays: the area with a place and a count, as the rows count by places of the whole area; for a part each caller's clause would need a law of parts.
pub fn count_faults(list: &[u32], at: usize, n: usize, top: usize, free: bool) -> usize
    requires { at + n ≤ length list.now }
    ensures { Faults list.now at n top free result }
{
    let mut faults = 0;
    // a sum with no branch, which is vector code; a filter's count is not
    for &number in &list[at..at + n] {
        faults += usize::from(is_misfit(number, top, free));
    }
    faults
}

// The header has a number out of range.
#[tactic(auto, unfolding(crate::specs::Consistent::head_fault))]
fn head_has_fault(places: Places, area: &[u32]) -> bool
    requires { room places.sizes ≤ length area.now }
    ensures { result ≡ head_fault places.sizes area.now }
{
    let sizes = places.sizes;
    let made = places.header(area, MADE) as usize;
    made < places.header(area, INITIAL) as usize
        || sizes.chunks < made
        || sizes.chunks + made < places.header(area, SETS) as usize
        || sizes.entries < places.header(area, USED) as usize
}

// Set i of the table.
pub fn set_of(places: Places, numbers: &[u32], i: usize) -> EntrySet
    requires { (room places.sizes ≤ length numbers.now) × (i < 2 * places.sizes.chunks) }
    ensures { Holds (lanes numbers.now (set_place places.sizes i) 1) result }
{
    EntrySet::read_lanes(numbers, places.set(i), 1)
}

// The chunk named with a set among the first n, of 2 × C places for sets.
pub fn chunk_of_set(sizes: Sizes, numbers: &[u32], n: usize, set: EntrySet) -> Option<ChunkIdx>
    requires { Tabled sizes numbers.now n }
    ensures { result ≡ named (chunk_of (number set) (pairs (named_set sizes numbers.now) n)) }
{
    let places = Places { sizes };
    for i in 0..n {
        if set_of(places, numbers, i) == set {
            return ChunkIdx::named(numbers[places.set_chunk(i)]);
        }
    }
    None
}

// stays: places and an area beside each other, where each function asks that the area is long enough. Before the header is known to be in range there
// is no Area, and a writer reads the header of a list that it writes.

// A merge area that is long enough for its sizes, and whose header is in range; lent for reading.
// stays: Clone and Copy alone, as nobody compares or prints a lent area.
#[derive(Clone, Copy)]
pub struct Area<'a> {
    pub sizes: Sizes,
    pub numbers: &'a [u32],
    ghost headed: { Headed sizes numbers.now },
}

impl<'a> Area<'a> {
    // Where its numbers stand.
    pub fn places(&self) -> Places
        ensures { result.sizes ≡ self.now.sizes }
    {
        Places { sizes: self.sizes }
    }

    // Number k of the header.
    pub fn header(&self, k: usize) -> u32
        requires { k < 32 }
        ensures { result ≡ cell self.now.numbers.now (head self.now.sizes k) }
    {
        self.places().header(self.numbers, k)
    }

    // Row x of the flags has one that no made chunk can have.
    #[tactic(auto, unfolding(crate::specs::Consistent::row_fault))]
    fn row_has_fault(&self, x: usize) -> bool
        requires { x < cell self.now.numbers.now (head self.now.sizes 1) }
        ensures { result ≡ row_fault self.now.numbers.now self.now.sizes.chunks (cell self.now.numbers.now (head self.now.sizes 1)) x }
    {
        let from = x * self.sizes.chunks;
        let made = self.header(MADE) as usize;
        let unmade = self.sizes.chunks - made;
        let own = count_faults(self.numbers, from + x, 1, 1, false);
        let beyond = count_faults(self.numbers, from + made, unmade, 1, false);
        0 < own + beyond
    }

    // Some flag is set that no made chunk can have.
    fn flags_have_fault(&self) -> bool
        ensures { result ≡ flags_fault self.now.numbers.now self.now.sizes.chunks (cell self.now.numbers.now (head self.now.sizes 1)) }
    {
        let chunks = self.sizes.chunks;
        let made = self.header(MADE) as usize;
        for x in 0..made {
            if self.row_has_fault(x) {
                return true;
            }
        }
        0 < count_faults(
            self.numbers,
            made * chunks,
            (chunks - made) * chunks,
            1,
            false,
        )
    }

    // How many indices are out of range, and initial chunks need creation.
    #[tactic(auto, unfolding(crate::specs::Consistent::index_faults))]
    fn count_index_faults(&self) -> usize
        ensures { result ≡ index_faults self.now.sizes self.now.numbers.now }
    {
        let sizes = self.sizes;
        let places = self.places();
        let initial = self.header(INITIAL) as usize;
        let made = self.header(MADE) as usize;
        let sets = self.header(SETS) as usize;
        let used = self.header(USED) as usize;
        let count = |at, n, top, free| count_faults(self.numbers, at, n, top, free);
        count(places.set_chunk(0), sets, made, false)
            + count(places.key(0), sizes.chunks, made, true)
            + count(places.home(0), sizes.modules, made, true)
            + count(places.entry_chunk(0), used, made, false)
            + count(places.entry_module(0), used, sizes.modules, false)
            + count(places.need(0), initial, 1, false)
    }

    // One of the sets has a bit at or above E.
    fn sets_out_of_range(&self) -> bool
        ensures { result ≡ some_below (out_of_range self.now.sizes self.now.numbers.now) (cell self.now.numbers.now (head self.now.sizes 3)) }
    {
        let places = self.places();
        for i in 0..self.header(SETS) as usize {
            if !set_of(places, self.numbers, i).in_range(self.sizes.bits) {
                return true;
            }
        }
        false
    }

    // Two of the sets are equal, told apart in local arrays for so many of them and their words.
    fn repeat_among<const ROOM: usize, const WORDS: usize>(&self) -> bool
        requires { (cell self.now.numbers.now (head self.now.sizes 3) ≤ ROOM) × (ROOM ≤ 2048) × (WORDS ≡ 8 * ROOM) }
        ensures { result ≡ twice (λ (i : ℕ). lanes self.now.numbers.now (set_place self.now.sizes i) 1) (cell self.now.numbers.now (head self.now.sizes 3)) }
    {
        let mut lanes = [0u32; WORDS];
        let mut order = [0u32; ROOM];
        let mut scratch = [0u32; ROOM];
        let at = self.places().set(0);
        let n = self.header(SETS) as usize;
        !row_is_distinct(
            self.numbers,
            at,
            n,
            ROOM,
            &mut lanes,
            &mut order,
            &mut scratch,
        )
    }

    // Two of the sets are equal. Where they are few the local arrays are short, which is quicker.
    // stays: local arrays of a fixed length, as nothing is on the heap.
    fn sets_repeat(&self) -> bool
        ensures { result ≡ twice (λ (i : ℕ). lanes self.now.numbers.now (set_place self.now.sizes i) 1) (cell self.now.numbers.now (head self.now.sizes 3)) }
    {
        if self.header(SETS) <= 128 {
            self.repeat_among::<128, 1024>()
        } else {
            self.repeat_among::<2048, 16384>()
        }
    }

    // Row 21, the header apart.
    #[tactic(auto, unfolding(crate::specs::Consistent::sets_fault))]
    fn has_fault(&self) -> bool
        ensures { result ≡ body_fault self.now.sizes self.now.numbers.now }
    {
        self.flags_have_fault()
            || 0 < self.count_index_faults()
            || self.merges_have_fault()
            || self.sets_out_of_range()
            || self.sets_repeat()
    }

    // The chunk named with a set.
    pub fn chunk_of_set(&self, set: EntrySet) -> Option<ChunkIdx>
        ensures { result ≡ named (chunk_of (number set) (sets-in self.now.sizes self.now.numbers.now)) }
    {
        chunk_of_set(self.sizes, self.numbers, self.header(SETS) as usize, set)
    }
}

// Row 21.
#[tactic(auto, unfolding(crate::specs::Consistent::inconsistent))]
pub fn is_inconsistent(places: Places, numbers: &[u32]) -> bool
    requires { room places.sizes ≤ length numbers.now }
    ensures { result ≡ inconsistent places.sizes numbers.now }
{
    let sizes = places.sizes;
    head_has_fault(places, numbers) || Area { sizes, numbers }.has_fault()
}

// The area, if none of rows 14, 15 and 21 fits, or the first that does; many and faulty are what the call's own lists say to 14 and 15.
#[tactic(auto, unfolding(crate::specs::Calls::standing, merge_state::specs::Table::first_fitting, crate::specs::Consistent::over))]
pub fn standing_row<'a>(
    sizes: Sizes,
    many: bool,
    faulty: bool,
    numbers: &'a [u32],
) -> Result<Area<'a>, Refusal>
    ensures row { row_of result ≡ standing sizes many faulty numbers.now }
    ensures area { IfOk result (λ a. (a.sizes ≡ sizes) × (a.numbers.now ≡ numbers.now)) }
{
    if over_limits(sizes) || many {
        return Err(Refusal::MergeOverLimits);
    }
    let places = Places { sizes };
    if faulty || too_short(places, numbers) {
        return Err(Refusal::MergeLists);
    }
    if is_inconsistent(places, numbers) {
        return Err(Refusal::MergeAreaInconsistent);
    }
    Ok(Area { sizes, numbers })
}
