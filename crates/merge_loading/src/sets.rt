// Tests of the lent sets.
ghost use Rattle.std.specs.Prelude.{◌≡◌, not, ℕ, ◌*◌, ◌≤◌, length};
ghost use Rattle.graphs.specs.Lists.{some_below};
ghost use Rattle.entry_set.specs.Sets.{legal};
ghost use Rattle.merge_state.specs.Loading.{set_at, twice};
ghost use Rattle.equal_sets.specs.Laid.{nth_set};
ghost use Rattle.merge_loading.specs.Sets.{CanTest};

use entry_set::EntrySet;

// One of the first p sets has a bit at or above e.
pub fn any_illegal(sets: &[u64], w: usize, p: usize, e: usize) -> bool
    requires { CanTest sets.now w p e }
    ensures { result ≡ some_below (λ (i : ℕ). not (legal e (set_at w sets.now i))) p }
{
    for i in 0..p {
        if !EntrySet::at(sets, w, i).in_range(e) {
            return true;
        }
    }
    false
}

// Two of the first p sets are equal.
// stays: local arrays, as memory is fixed and nothing is on the heap. A list of sets has its w and how many it holds beside it, as C lends it.
#[tactic(auto, using(merge_area::specs::Twice::twice_is))]
pub fn any_twice(sets: &[u64], w: usize, p: usize) -> bool
    requires { (w ≤ 4) × (p * w ≤ length sets.now) × (p ≤ 1024) }
    ensures { result ≡ twice (nth_set sets.now w) p }
{
    let mut lanes = [0u32; 8192];
    let mut order = [0u32; 1024];
    let mut scratch = [0u32; 1024];
    !equal_sets::are_distinct(sets, w, p, 1024, &mut lanes, &mut order, &mut scratch)
}
