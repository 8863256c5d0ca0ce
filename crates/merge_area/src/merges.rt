// The merges that an area records, where merged chunks stand for their target: their ends, and rings of them.
ghost use Rattle.std.specs.Prelude.{◌≡◌, not, cond, ℕ, ◌+◌, ◌<◌, length, get_or, eqb};
ghost use Rattle.graphs.specs.Lists.{some_below, below};
ghost use Rattle.graphs.specs.Walk.{cyclic};
ghost use Rattle.merge_state.specs.State.{None};
ghost use Rattle.merge_state.specs.Merges.{merged_into, gone, waits};
ghost use Rattle.merge_area.specs.Read.{read, mode_in, into_in};
ghost use Rattle.merge_area.specs.Consistent.{lane_faults, merges_fault};
ghost use Rattle.merge_area.specs.Merged.{Inside, Led, Doubled, CanFollow};

use crate::places::{MADE, MODE, Places};
use crate::{Area, count_faults};
use merge_state::{NONE, Sizes};

// The chunk that x was merged into, as v tells, or x itself.
fn step_of(v: u32, x: u32) -> u32
    ensures { result ≡ cond (eqb v None) x v }
{
    if v == NONE { x } else { v }
}

// stays: sizes and area, not an Area: find_ends, and what it calls, ask less of the header than an Area states. By a rule of the project (docs/DECISIONS.md) what
// is public asks no more from one version to the next.

// One step from each of the first chunks, as many as there are ends.
fn take_step(sizes: Sizes, area: &[u32], ends: &mut [u32])
    requires { CanFollow sizes area.now (length ends.old) }
    ensures { Led (into_in sizes area.now) (length ends.old) 1 ends.new }
{
    let places = Places { sizes };
    for (x, end) in ends.iter_mut().enumerate() {
        *end = step_of(area[places.into(x)], x as u32);
    }
}

// Each is led on from where it was: at least twice as far.
// stays: an index, as each step reads the list that it writes, which an iterator would hold.
fn double(ends: &mut [u32])
    requires { Inside (length ends.old) ends.old }
    ensures { Doubled (length ends.old) ends.old ends.new }
{
    for x in 0..ends.len() {
        ends[x] = ends[ends[x] as usize];
    }
}

// Where the merges of the first chunks, as many as there are ends, lead after 1,024 steps or more: their ends, unless they run in a ring.
pub fn find_ends(sizes: Sizes, area: &[u32], ends: &mut [u32])
    requires { CanFollow sizes area.now (length ends.old) }
    ensures { Led (into_in sizes area.now) (length ends.old) 1024 ends.new }
{
    take_step(sizes, area, ends);
    for _round in 0..10u32 {
        double(ends);
    }
}

// One of the ends was merged itself.
fn some_left(sizes: Sizes, area: &[u32], ends: &[u32]) -> bool
    requires { CanFollow sizes area.now (length ends.now) × Inside (length ends.now) ends.now }
    ensures { result ≡ some_below (λ (x : ℕ). not (eqb (into_in sizes area.now (get_or ends.now x 0)) None)) (length ends.now) }
{
    let places = Places { sizes };
    for &end in ends {
        if area[places.into(end as usize)] != NONE {
            return true;
        }
    }
    false
}

// The merges of the first n chunks run in a ring.
// stays: a local array, as memory is fixed and nothing is on the heap; n is how many chunks are made, of C in the area.
fn has_ring(sizes: Sizes, area: &[u32], n: usize) -> bool
    requires { CanFollow sizes area.now n }
    ensures { result ≡ cyclic (merged_into (into_in sizes area.now)) (below n) }
{
    let mut ends = [0u32; 1024];
    let ends = &mut ends[..n];
    find_ends(sizes, area, ends);
    some_left(sizes, area, ends)
}

impl<'a> Area<'a> {
    // Merged chunks stand for their target.
    #[tactic(auto, unfolding(crate::specs::Read::mode_in))]
    pub fn is_mode(&self) -> bool
        ensures { result ≡ mode_in self.now.sizes self.now.numbers.now }
    {
        self.header(MODE) != 0
    }

    // Chunk x was merged away, where merged chunks stand for their target.
    #[tactic(auto, unfolding(crate::specs::Read::into_in))]
    pub fn is_gone(&self, x: usize) -> bool
        ensures { result ≡ gone (read self.now.sizes self.now.numbers.now) x }
    {
        self.is_mode() && x < self.sizes.chunks && self.numbers[self.places().into(x)] != NONE
    }

    // Chunk x needs creation and wasn't merged away.
    #[tactic(auto, unfolding(crate::specs::Read::needs_in))]
    pub fn is_waiting(&self, x: usize) -> bool
        requires { x < self.now.sizes.chunks }
        ensures { result ≡ waits (read self.now.sizes self.now.numbers.now) x }
    {
        let at = self.places().need(x);
        self.numbers[at] != 0 && !self.is_gone(x)
    }

    // How many of the recorded merges are out of range.
    #[tactic(auto, unfolding(crate::specs::Consistent::lane_faults))]
    fn count_lane_faults(&self) -> usize
        ensures { result ≡ lane_faults self.now.sizes self.now.numbers.now }
    {
        let made = self.header(MADE) as usize;
        let others = self.sizes.chunks - made;
        let places = self.places();
        let a = count_faults(self.numbers, places.into(0), made, made, true);
        let b = count_faults(self.numbers, places.into(made), others, 0, true);
        a + b
    }

    // A recorded merge is out of range, or merges run in a ring.
    #[tactic(auto, unfolding(crate::specs::Consistent::merges_fault))]
    pub fn merges_have_fault(&self) -> bool
        ensures { result ≡ merges_fault self.now.sizes self.now.numbers.now }
    {
        self.is_mode()
            && (0 < self.count_lane_faults()
                || has_ring(self.sizes, self.numbers, self.header(MADE) as usize))
    }
}
