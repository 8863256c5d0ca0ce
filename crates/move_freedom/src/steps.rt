// Nodes that slots lead to.
ghost use Rattle.std.specs.Prelude.{◌≡◌, ℕ, ◌<◌, Bool, length, get_or};
ghost use Rattle.move_freedom.specs.Steps.{goes, CanFlag, Flagged, CanStep};

use graph_neighbours::Slots;

// Flags the target of each slot that passes a test of its two ends.
pub fn flag_targets<F: Fn(u32, u32) -> bool>(slots: &Slots, passes: F, flags: &mut [bool])
    requires can_flag { CanFlag slots.now.sources.now slots.now.targets.now slots.now.count flags.old }
    requires callable { (k : ℕ) → k < slots.now.count → F.pre passes (get_or slots.now.sources.now k 0) (get_or slots.now.targets.now k 0) }
    ensures { (test : ℕ → ℕ → Bool) → ((u v : ℕ) (r : Bool) → F.post passes u v r → r ≡ test u v) → Flagged test slots.now.sources.now slots.now.targets.now slots.now.count flags.old flags.new }
{
    for k in 0..slots.count {
        let target = slots.targets[k];
        if passes(slots.sources[k], target) {
            flags[target as usize] = true;
        }
    }
}

// Flags the nodes that come a step after marked ones; slots from or to `skip` are passed over.
pub fn steps(slots: &Slots, skip: u32, marks: &[u32], flags: &mut [bool])
    requires { CanStep slots.now.sources.now slots.now.targets.now slots.now.count marks.now flags.old }
    ensures { Flagged (goes marks.now skip) slots.now.sources.now slots.now.targets.now slots.now.count flags.old flags.new }
{
    flag_targets(
        slots,
        |u, v| u != v && u != skip && v != skip && marks[u as usize] != 0,
        flags,
    );
}
