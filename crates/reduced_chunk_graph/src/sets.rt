// Lent sets.
ghost use Rattle.std.specs.Prelude.{◌≤◌};
ghost use Rattle.reduced_chunk_graph.specs.Asked.{SetTold};

use entry_set::EntrySet;
use refusals::Refusal;

// Row 11, or the set that the list lends.
pub(crate) fn lent_set(bits: &[u64], e: usize) -> Result<EntrySet, Refusal>
    requires { e ≤ 256 }
    ensures { SetTold e bits.now result }
{
    if !entry_set::is_legal(bits, e) {
        return Err(Refusal::IllegalSet);
    }
    Ok(EntrySet::from_list(bits))
}
