// Single tests of the table's rows.
ghost use Rattle.std.specs.Prelude.{◌≡◌, false, not, ◌||◌, ◌+◌, ◌<◌, ◌≤◌, length, eqb, ltb};
ghost use Rattle.graphs.specs.Count.{count};
ghost use Rattle.merge_state.specs.Table.{unmade, full, any_misfit, any_gone, bad_starts, falling};
ghost use Rattle.merge_state.specs.Merges.{waits};
ghost use Rattle.merge_area.specs.Layout.{cell, head};
ghost use Rattle.merge_area.specs.Read.{read};

use merge_area::Area;
use merge_area::places::{CREATED, INITIAL, MADE, USED};
use merge_state::ChunkIdx;

// The chunk isn't made yet.
pub fn is_unmade(area: &Area, x: ChunkIdx) -> bool
    ensures { result ≡ unmade (read area.now.sizes area.now.numbers.now) x.0 }
{
    area.header(MADE) <= x.0
}

// No list entry is left.
pub fn is_full(area: &Area) -> bool
    ensures { result ≡ full area.now.sizes (read area.now.sizes area.now.numbers.now) }
{
    area.sizes.entries <= area.header(USED) as usize
}

// Some number of the list isn't below top.
fn has_excess(l: &[u32], top: usize) -> bool
    ensures { result ≡ any_misfit top false l.now }
{
    match u32::try_from(top) {
        Ok(top) => !layout::all_below(l, 0, l.len(), top),
        Err(_) => false,
    }
}

// Some number of the list isn't below top, nor None where that is allowed.
pub fn has_misfit(l: &[u32], top: usize, free: bool) -> bool
    ensures { result ≡ any_misfit top free l.now }
{
    if free {
        0 < merge_area::count_faults(l, 0, l.len(), top, true)
    } else {
        has_excess(l, top)
    }
}

// How many chunks wait for creation.
pub fn count_candidates(area: &Area) -> usize
    ensures { result ≡ count (waits (read area.now.sizes area.now.numbers.now)) (cell area.now.numbers.now (head area.now.sizes 1)) }
{
    let made = area.header(MADE) as usize;
    let mut n = 0;
    for x in 0..made {
        n += usize::from(area.is_waiting(x));
    }
    n
}

// Some chunk of the list was merged away.
pub fn some_gone(area: &Area, l: &[u32]) -> bool
    ensures { result ≡ any_gone (read area.now.sizes area.now.numbers.now) l.now }
{
    for &x in l {
        if area.is_gone(x as usize) {
            return true;
        }
    }
    false
}

// One of four lengths isn't n.
pub fn is_other_length(n: usize, a: usize, b: usize, c: usize, d: usize) -> bool
    ensures { result ≡ not (eqb a n) || (not (eqb b n) || (not (eqb c n) || not (eqb d n))) }
{
    a != n || b != n || c != n || d != n
}

// Fewer than n numbers are left for chunks that the pass creates.
pub fn lacks_numbers(area: &Area, n: usize) -> bool
    requires { n ≤ area.now.sizes.chunks }
    ensures { result ≡ ltb area.now.sizes.chunks (cell area.now.numbers.now (head area.now.sizes 0) + cell area.now.numbers.now (head area.now.sizes 2) + n) }
{
    let initial = area.header(INITIAL) as usize;
    let created = area.header(CREATED) as usize;
    area.sizes.chunks < initial + created + n
}

// Some start is above the next, among the first n + 1. It has no early exit, so that it compiles to vector code.
// stays: n counts the pairs that are compared, one less than the starts; the list's length less one says no more.
fn is_falling(starts: &[u32], n: usize) -> bool
    requires { n < length starts.now }
    ensures { result ≡ falling n starts.now }
{
    let mut falls = false;
    for i in 0..n {
        falls |= starts[i + 1] < starts[i];
    }
    falls
}

// The list isn't n + 1 numbers that start from 0, don't fall and end at d.
// stays: n isn't the list's length, but what that is held against.
#[tactic(auto, unfolding(merge_state::specs::Table::bad_starts))]
pub fn are_bad_starts(n: usize, starts: &[u32], d: usize) -> bool
    ensures { result ≡ bad_starts n starts.now d }
{
    starts.is_empty()
        || starts.len() - 1 != n
        || starts[0] != 0
        || starts[n] as usize != d
        || is_falling(starts, n)
}
