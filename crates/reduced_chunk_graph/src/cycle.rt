// Whether the graph has a cycle, by the book's search: two routines that call each other (crate graph_book_walk).
// stays: the C interface. The calls take what C lends, load, n, fixed and area, one by one, and ask nothing of it: no fact is there for a struct to keep. n is the
// number of nodes, not a list's length.
ghost use Rattle.std.specs.Prelude.{◌≡◌};
ghost use Rattle.move_ledger.specs.Ledger as ledger;
ghost use Rattle.move_area.specs.Calls.{asked};
ghost use Rattle.move_load_view.specs.View.{lent_by};
ghost use Rattle.reduced_chunk_graph.specs.Answers.{of_load};

use super::Verdict;
use move_area::Area;
use move_load_view::Load;
use refusals::Refusal;

// The graph is worked out from the placement; the flag that the area keeps isn't read.
pub fn has_cycle(load: &Load, n: usize, fixed: &[u32], area: &[u32]) -> Result<Verdict, Refusal>
    ensures { of_load result ≡ asked (lent_by load.now) fixed.now n area.now ledger.has_cycle }
{
    let area = Area { n, numbers: area };
    move_rows::check::later_row(load, n, fixed, area.numbers)?;
    if move_verdict::has_cycle(load, &area) {
        return Ok(Verdict::Cyclic);
    }
    Ok(Verdict::Acyclic)
}
