// Rows 7 and 8 of the table: entry sets in range, no two of them equal.
// stays: memory is fixed, nothing is on the heap.
ghost use Rattle.std.specs.Prelude.{◌≡◌, ◌&&◌, ◌*◌, ◌≤◌, length, eqb};
ghost use Rattle.refusals.specs.Rows.{row_of};
ghost use Rattle.entry_set.specs.Sets.{width};
ghost use Rattle.move_ledger.specs.Loading.{row7, row8};
ghost use Rattle.move_load_view.specs.View.{lent_by};
ghost use Rattle.move_load_rows.specs.EntrySets.{set_row, CanSets};

use entry_set::{EntrySet, set_width};
use equal_sets::are_distinct;
use move_load_view::Load;
use refusals::Refusal;

// stays: the two tests ask what `sets_refusal` asks, whose steps they are; a struct that keeps it would be made there alone, and be no plainer.

// Row 7: some set has a bit at or above E.
fn any_too_high(load: &Load, sets: &[u64]) -> bool
    requires { CanSets (lent_by load.now) sets.now }
    ensures { result ≡ row7 (lent_by load.now) sets.now }
{
    let w = set_width(load.bits);
    for i in 0..load.atoms {
        if !EntrySet::at(sets, w, i).in_range(load.bits) {
            return true;
        }
    }
    false
}

// Row 8: two sets are equal.
fn any_alike(load: &Load, sets: &[u64]) -> bool
    requires { CanSets (lent_by load.now) sets.now }
    ensures { result ≡ row8 (lent_by load.now) sets.now }
{
    let mut lanes = [0u32; 4096];
    let mut order = [0u32; 512];
    let mut scratch = [0u32; 512];
    !are_distinct(
        sets,
        set_width(load.bits),
        load.atoms,
        512,
        &mut lanes,
        &mut order,
        &mut scratch,
    )
}

// The rows 7 and 8.
#[tactic(auto, unfolding(crate::specs::EntrySets::set_row))]
pub fn sets_refusal(load: &Load, sets: &[u64]) -> Result<(), Refusal>
    requires { CanSets (lent_by load.now) sets.now }
    ensures { row_of result ≡ set_row (lent_by load.now) sets.now }
{
    if any_too_high(load, sets) {
        return Err(Refusal::SetOutOfRange);
    }
    if any_alike(load, sets) {
        return Err(Refusal::EqualSets);
    }
    Ok(())
}

// The marks of the atoms and their entry sets have their lengths; any answer where row 1 fits.
pub fn lists_fit(load: &Load, fixed: &[u32], sets: &[u64]) -> bool
    ensures { load.now.atoms ≤ 512 → load.now.bits ≤ 256 → result ≡ (eqb (length fixed.now) load.now.atoms && eqb (length sets.now) (load.now.atoms * width load.now.bits)) }
{
    fixed.len() == load.atoms
        && load.atoms <= 512
        && load.bits <= 256
        && sets.len() == load.atoms * set_width(load.bits)
}
