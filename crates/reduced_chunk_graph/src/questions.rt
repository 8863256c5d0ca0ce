// The public questions: an atom's set, a set's atom count, one edge's multiplicity, the number of edges and of chunks, and the k-th edge.
// stays: the C interface. The calls take what C lends, load, n, fixed and area, one by one, and ask nothing of it: no fact is there for a struct to keep. n is the
// number of nodes, not a list's length.
// stays: memory is fixed, nothing is on the heap.
ghost use Rattle.std.specs.Prelude.{◌≡◌};
ghost use Rattle.move_ledger.specs.Ledger as ledger;
ghost use Rattle.move_load_view.specs.View.{lent_by};
ghost use Rattle.move_area.specs.Calls.{asked};
ghost use Rattle.reduced_chunk_graph.specs.Answers.{of_set, of_number, of_edge};

use super::sets::lent_set;
use entry_set::EntrySet;
use move_area::Area;
use move_load_view::Load;
use move_questions::Edge;
use move_rows::check::later_row;
use move_rows::listed::listed_row;
use move_rows::registered;
use refusals::Refusal;

// An atom's set.
pub fn atom_set(
    load: &Load,
    n: usize,
    fixed: &[u32],
    area: &[u32],
    atom: u32,
) -> Result<EntrySet, Refusal>
    ensures { of_set result ≡ asked (lent_by load.now) fixed.now n area.now (ledger.atom_set atom) }
{
    let area = Area { n, numbers: area };
    later_row(load, n, fixed, area.numbers)?;
    let i = atom as usize;
    if load.atoms <= i {
        return Err(Refusal::NoSuchAtom);
    }
    Ok(move_questions::atom_set(&area, i))
}

// A set's atom count.
pub fn atom_count(
    load: &Load,
    n: usize,
    fixed: &[u32],
    area: &[u32],
    bits: &[u64],
) -> Result<u64, Refusal>
    ensures { of_number result ≡ asked (lent_by load.now) fixed.now n area.now (ledger.atom_count bits.now) }
{
    let area = Area { n, numbers: area };
    later_row(load, n, fixed, area.numbers)?;
    let set = lent_set(bits, load.bits)?;
    let count = move_questions::atom_count(&area, registered(&area), set);
    Ok(u64::from(count))
}

// The multiplicity of the edge from one set to another, 0 where there is none.
pub fn multiplicity(
    load: &Load,
    n: usize,
    fixed: &[u32],
    area: &[u32],
    from: &[u64],
    to: &[u64],
) -> Result<u64, Refusal>
    ensures { of_number result ≡ asked (lent_by load.now) fixed.now n area.now (ledger.multiplicity from.now to.now) }
{
    let area = Area { n, numbers: area };
    later_row(load, n, fixed, area.numbers)?;
    let source = lent_set(from, load.bits)?;
    let target = lent_set(to, load.bits)?;
    let count = move_questions::multiplicity(&area, registered(&area), source, target);
    Ok(u64::from(count))
}

// The number of distinct edges.
pub fn edge_count(load: &Load, n: usize, fixed: &[u32], area: &[u32]) -> Result<u64, Refusal>
    ensures { of_number result ≡ asked (lent_by load.now) fixed.now n area.now ledger.edge_count }
{
    let area = Area { n, numbers: area };
    later_row(load, n, fixed, area.numbers)?;
    Ok(move_questions::edge_count(&area))
}

// The number of chunks: sets that have an atom.
pub fn chunk_count(load: &Load, n: usize, fixed: &[u32], area: &[u32]) -> Result<u64, Refusal>
    ensures { of_number result ≡ asked (lent_by load.now) fixed.now n area.now ledger.chunk_count }
{
    let area = Area { n, numbers: area };
    later_row(load, n, fixed, area.numbers)?;
    Ok(move_questions::chunk_count(&area))
}

// The k-th edge, from 0, by rising source set, then target set.
pub fn edge_at(
    load: &Load,
    n: usize,
    fixed: &[u32],
    area: &[u32],
    k: u64,
) -> Result<Option<Edge>, Refusal>
    ensures { of_edge result ≡ asked (lent_by load.now) fixed.now n area.now (ledger.edge_at k) }
{
    let mut degrees = [0u32; 1024];
    let mut order = [0u32; 1024];
    let area = Area { n, numbers: area };
    listed_row(load, n, fixed, area.numbers, &mut degrees, &mut order)?;
    Ok(move_questions::edge_at(&area, registered(&area), &order, &degrees, k))
}
