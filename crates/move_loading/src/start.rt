// What stands in a loaded area before anything is worked out: the entry sets, a node for each atom, no walk yet.
ghost use Rattle.std.specs.Prelude.{◌≡◌, [], ◌∷◌, ℕ, ◌+◌, ◌*◌, ◌≤◌, ◌<◌, length};
ghost use Rattle.graphs.specs.Tab.{tab};
ghost use Rattle.layout.specs.Patch.{patch};
ghost use Rattle.layout.specs.Fields.{lay};
ghost use Rattle.move_ledger.specs.Loading.{entry_sets};
ghost use Rattle.move_load_view.specs.View.{lent_by};
ghost use Rattle.move_area.specs.Bodies.{lane_at, write};
ghost use Rattle.move_loading.specs.Start.{lent_word, word_fields, start_bodies, CanWords, CanStart};

use entry_set::EntrySet;
use move_load_view::Load;

// stays: a writer has N and the list itself, as move_fixed says; `n` is the lanes' distance there, not a list's length. Nor is `count` the
// length of `sets` over `width`: a set of no entry bits has no number there.

// Word j of each of `count` sets, of `width` numbers each, into lane j.
fn write_words(area: &mut [u32], n: usize, sets: &[u64], width: usize, count: usize, j: usize)
    requires { CanWords area.old n sets.now width count × (j < 8) }
    ensures { area.new ≡ patch (lane_at n j) (tab (lent_word width sets.now j) count) area.old }
{
    let at = n * n + 24 + j * n;
    let lane = &mut area[at..at + count];
    for (i, word) in lane.iter_mut().enumerate() {
        *word = EntrySet::at(sets, width, i).word(j);
    }
}

// All eight words.
fn write_sets(area: &mut [u32], n: usize, sets: &[u64], width: usize, count: usize)
    requires { CanWords area.old n sets.now width count }
    ensures { area.new ≡ lay (word_fields n width sets.now count) area.old }
{
    for j in 0..8 {
        write_words(area, n, sets, width, count, j);
    }
}

// 0, 1, .. count - 1.
fn write_numbers(area: &mut [u32], at: usize, count: usize)
    requires { (at + count ≤ length area.old) × (count ≤ 512) }
    ensures { area.new ≡ patch at (tab (λ (i : ℕ). i) count) area.old }
{
    let numbers = &mut area[at..at + count];
    for (i, number) in numbers.iter_mut().enumerate() {
        *number = i as u32;
    }
}

// The header: `count` registered sets, the walk counter 0, no acyclic flag yet, each set occupied, and no edge counted yet.
fn write_header(area: &mut [u32], at: usize, count: usize)
    requires { (at + 5 ≤ length area.old) × (count ≤ 512) }
    ensures { area.new ≡ patch at (count ∷ 0 ∷ 0 ∷ count ∷ 0 ∷ []) area.old }
{
    let sets = count as u32;
    area[at..at + 5].copy_from_slice(&[sets, 0, 0, sets, 0]);
}

// The header, the sets, and each atom's node; counts, marks and component are 0, and the edges as they were.
pub fn write_start(load: &Load, n: usize, sets: &[u64], area: &mut [u32])
    requires { CanStart area.old load.now.atoms load.now.bits n sets.now }
    ensures { area.new ≡ write n (start_bodies load.now.atoms n (entry_sets (lent_by load.now) sets.now) area.old) area.old }
{
    let square = n * n;
    write_header(area, square, load.atoms);
    write_sets(area, n, sets, entry_set::set_width(load.bits), load.atoms);
    let lanes = square + 24;
    layout::fill_with(area, lanes + 8 * n, n, 0);
    layout::fill_with(area, lanes + 9 * n, n, 0);
    layout::fill_with(area, lanes + 10 * n, n, 0);
    write_numbers(area, lanes + 24 * n, load.atoms);
}
