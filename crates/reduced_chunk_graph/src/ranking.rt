// Which of two plans is better: two areas of one load and one N, both lent for reading.
// stays: the C interface. The calls take what C lends, load, n, fixed and area, one by one, and ask nothing of it: no fact is there for a struct to keep. n is the
// number of nodes, not a list's length.
ghost use Rattle.std.specs.Prelude.{◌≡◌};
ghost use Rattle.move_load_view.specs.View.{lent_by};
ghost use Rattle.move_rank.specs.Ranking.{ranking};
ghost use Rattle.reduced_chunk_graph.specs.Answers.{of_rank};

use move_load_view::Load;
use move_rows::check::later_row;
use refusals::Refusal;
use std::cmp::Ordering;

// Whether the first area's placement comes before the second's: fewer chunks first, then fewer edges, then the atoms' sets as numbers from atom 0.
pub fn rank(
    load: &Load,
    n: usize,
    fixed: &[u32],
    first: &[u32],
    second: &[u32],
) -> Result<Ordering, Refusal>
    ensures { of_rank result ≡ ranking (lent_by load.now) fixed.now n first.now second.now }
{
    later_row(load, n, fixed, first)?;
    later_row(load, n, fixed, second)?;
    Ok(move_rank::rank(first, second, n, load.atoms))
}
