// Loading a move graph.
// stays: the C interface. The calls take what C lends, load, n, fixed and area, one by one, and ask nothing of it: no fact is there for a struct to keep. n is the
// number of nodes, not a list's length.
ghost use Rattle.std.specs.Prelude.{◌≡◌};
ghost use Rattle.move_area.specs.Calls as calls;
ghost use Rattle.move_load_view.specs.View.{lent_by};
ghost use Rattle.reduced_chunk_graph.specs.Answers.{of_load};

use super::Verdict;
use move_load_view::Load;
use refusals::Refusal;

// Loads the graph into the area and tells whether it is cyclic; a refused load leaves the area as it was.
pub fn new(
    load: &Load,
    n: usize,
    fixed: &[u32],
    sets: &[u64],
    area: &mut [u32],
) -> Result<Verdict, Refusal>
    ensures result_value { of_load result ≡ (calls.new (lent_by load.now) fixed.now n sets.now area.old).answer }
    ensures area_after { area.new ≡ (calls.new (lent_by load.now) fixed.now n sets.now area.old).area }
{
    move_load_rows::loading_refusal(load, n, fixed, sets, area.len())?;
    let cyclic = move_loading::load(load, n, sets, area);
    move_fixed::keep(area, n, fixed);
    if cyclic {
        return Ok(Verdict::Cyclic);
    }
    Ok(Verdict::Acyclic)
}
