// Lists written over a part of a list, and tests on a part of a list.
#![tactic(auto)]

ghost use Rattle.std.specs.Prelude.{◌≡◌, ◌+◌, ◌≤◌, length, replicate};
ghost use Rattle.layout.specs.Patch.{patch, part};
ghost use Rattle.layout.specs.Steps.{CanCopy};

mod compare;

pub use compare::{all_below, none_above, same_numbers};

// stays: list, place and length come one by one: the clauses say of the whole list what is written where, a patch, and each caller's proof goes on
// from there. Over a lent part each of them would have to put the part back: no plainer.

// k numbers of `from`, from `start` on, are written at `at`.
// stays: one number at a time. The library's `copy_from_slice` was tried: it calls memmove where the compiler doesn't see two lists apart, and the archive for C
// is to need memset and memcpy alone (include/nidskalm.h).
pub fn copy(area: &mut [u32], at: usize, from: &[u32], start: usize, k: usize)
    requires { CanCopy area.old at from.now start k }
    ensures { area.new ≡ patch at (part start k from.now) area.old }
{
    for i in 0..k {
        area[at + i] = from[start + i];
    }
}

// v is written k times from `at` on.
pub fn fill_with(area: &mut [u32], at: usize, k: usize, v: u32)
    requires { at + k ≤ length area.old }
    ensures { area.new ≡ patch at (replicate k v) area.old }
{
    area[at..at + k].fill(v);
}
