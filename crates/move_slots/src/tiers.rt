// How long the lists are that a call works with: short ones, which are sooner cleared, for a small load, and else such as the limits ask for.
ghost use Rattle.std.specs.Prelude.{◌≡◌, true, ◌≤◌};

use move_load_view::Load;

// The nodes and dependencies of a small load.
const SMALL_NODES: usize = 128;

const SMALL_DEPENDENCIES: usize = 768;

// Whether the load is small.
pub fn is_small(load: &Load, n: usize) -> bool
    ensures { result ≡ true → (n ≤ 128) × (load.now.entries ≤ 768) }
{
    n <= SMALL_NODES && load.entries <= SMALL_DEPENDENCIES
}
