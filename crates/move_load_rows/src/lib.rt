// The checks of a move graph's load: rows 1 to 8 of the table of refusals.
#![tactic(auto)]

ghost use Rattle.std.specs.Prelude.{◌≡◌, ◌+◌, ◌≤◌, ◌<◌, length};
ghost use Rattle.refusals.specs.Rows.{row_of};
ghost use Rattle.move_ledger.specs.Loading.{row1, row2, row3, row4, row5, row6, first_row, loading_row};
ghost use Rattle.move_load_view.specs.View.{CanPart, lent_by};
ghost use Rattle.move_load_rows.specs.Checks.{falling, bad_starts, not_other, span, CanOwn, no_host, list_row, Limits, Lengths};

mod sets;

use move_load_view::Load;
use refusals::Refusal;
use sets::lists_fit;
pub use sets::sets_refusal;

// None, in the list of hosts.
// stays: the C interface: the lent hosts hold it.
const NONE: u32 = 4294967295;

// Some start is below the one before it.
// stays: merge_rows has the like for the merge graph's starts. The two graphs' crates have no crate of rows in common, and one for a test of a line would be no
// plainer.
fn falls(load: &Load) -> bool
    requires { length load.now.starts.now ≡ load.now.atoms + 1 }
    ensures { result ≡ falling load.now.starts.now load.now.atoms }
{
    !load.starts.is_sorted()
}

// Row 4: the starts don't begin at 0, fall, or don't end at the number of dependencies.
#[tactic(auto, unfolding(move_ledger::specs::Loading::row4, crate::specs::Checks::falling))]
pub fn bad_starts(load: &Load) -> bool
    requires { length load.now.starts.now ≡ load.now.atoms + 1 }
    ensures { result ≡ row4 (lent_by load.now) }
{
    load.starts[0] != 0 || falls(load) || load.starts[load.atoms] as usize != load.entries
}

// Some dependency of the atom is no atom, or the atom itself.
fn atom_fails(load: &Load, atom: usize) -> bool
    requires { CanPart load.now.starts.now load.now.dependencies.now atom }
    ensures { result ≡ span (lent_by load.now) atom }
{
    load.dependencies_of(atom).iter().any(|&other| other as usize >= load.atoms
        || other as usize == atom)
}

// Row 5: some dependency is no atom, or the atom whose dependency it is.
fn bad_dependencies(load: &Load) -> bool
    requires { CanOwn (lent_by load.now) }
    ensures { result ≡ row5 (lent_by load.now) }
{
    for atom in 0..load.atoms {
        if atom_fails(load, atom) {
            return true;
        }
    }
    false
}

// Row 6: some host is neither None nor an atom.
fn bad_hosts(load: &Load) -> bool
    requires { length load.now.hosts.now ≡ load.now.bits }
    ensures { result ≡ row6 (lent_by load.now) }
{
    load.hosts
        .iter()
        .any(|&host| host != NONE && host as usize >= load.atoms)
}

// Row 1.
fn over_limits(load: &Load, n: usize) -> bool
    ensures { result ≡ row1 (lent_by load.now) n }
{
    load.atoms > 512 || load.entries > 8192 || load.bits > 256 || n <= load.atoms || n > 1024
}

// Row 2: a list hasn't the length called for.
fn wrong_lengths(load: &Load) -> bool
    requires { load.now.atoms ≤ 512 }
    ensures { result ≡ row2 (lent_by load.now) }
{
    load.starts.len() != load.atoms + 1
        || load.dependencies.len() != load.entries
        || load.hosts.len() != load.bits
}

// Row 3: an area of `size` numbers is too short.
fn too_short(load: &Load, n: usize, size: usize) -> bool
    requires { Limits (lent_by load.now) n }
    ensures { result ≡ row3 (lent_by load.now) n size }
{
    size < n * n + 24 * (load.atoms + n + load.entries + load.bits + 1)
}

// The rows 4 to 6.
#[tactic(auto, unfolding(crate::specs::Checks::list_row))]
fn list_refusal(load: &Load) -> Result<(), Refusal>
    requires { Lengths (lent_by load.now) }
    ensures { row_of result ≡ list_row (lent_by load.now) }
{
    if bad_starts(load) {
        return Err(Refusal::FaultyStarts);
    }
    if bad_dependencies(load) {
        return Err(Refusal::FaultyDependency);
    }
    if bad_hosts(load) {
        return Err(Refusal::FaultyHost);
    }
    Ok(())
}

// The rows 1 to 6; `fit` tells whether the lists lent beside the load have their lengths.
#[tactic(auto, unfolding(move_ledger::specs::Loading::first_row, crate::specs::Checks::list_row))]
pub fn refusal(load: &Load, n: usize, fit: bool, size: usize) -> Result<(), Refusal>
    ensures { row_of result ≡ first_row (lent_by load.now) n fit size }
{
    if over_limits(load, n) {
        return Err(Refusal::OverLimits);
    }
    if wrong_lengths(load) || !fit {
        return Err(Refusal::ListLength);
    }
    if too_short(load, n, size) {
        return Err(Refusal::AreaTooShort);
    }
    list_refusal(load)
}

// The rows 1 to 8 of loading.
// stays: the C interface. n is the number of nodes, and the lengths of the lists that C lends are what is tested.
pub fn loading_refusal(
    load: &Load,
    n: usize,
    fixed: &[u32],
    sets: &[u64],
    size: usize,
) -> Result<(), Refusal>
    ensures { row_of result ≡ loading_row (lent_by load.now) fixed.now n sets.now size }
{
    refusal(load, n, lists_fit(load, fixed, sets), size)?;
    sets_refusal(load, sets)
}
