// The start order for a desk: the chunks to fetch for one entry bit, each behind all that it depends on.
// stays: the C interface. `start_order` takes what C lends, load, n, fixed and area, one by one, and asks nothing of it: no fact is there for a struct to keep.
// stays: memory is fixed, nothing is on the heap.
#![tactic(auto)]

mod atoms;
mod fetch;
mod nodes;
mod turns;
mod wanted;

ghost use Rattle.std.specs.Prelude.{◌≡◌};
ghost use Rattle.move_load_view.specs.View.{lent_by};
ghost use Rattle.move_order.specs.Order.{started};
ghost use Rattle.reduced_chunk_graph.specs.Answers.{of_number};
ghost use Rattle.start_order.specs.Calls.{CanGoOn, GoesOn};

use move_area::{ACYCLIC, Area};
use move_load_view::Load;
use move_rows::listed::listed_row;
use nodes::Nodes;
use refusals::Refusal;

// Rows 26 and 27, then the chunks: `order` has the nodes by rising sets, `degrees` each node's number of edges.
fn go_on(
    load: &Load,
    area: &Area,
    bit: u64,
    order: &[u32],
    degrees: &mut [u32],
    chunks: &mut [u32],
) -> Result<u64, Refusal>
    requires { CanGoOn (lent_by load.now) area.now.n area.now.numbers.now order.now degrees.old }
    ensures { GoesOn (lent_by load.now) area.now.n area.now.numbers.now bit chunks.old (of_number result) chunks.new }
{
    if load.bits as u64 <= bit {
        return Err(Refusal::NoStart);
    }
    if area.header(ACYCLIC) == 0 {
        return Err(Refusal::NoStart);
    }
    if chunks.len() < load.atoms {
        return Err(Refusal::OrderTooShort);
    }
    let nodes = Nodes {
        area: *area,
        registered: move_rows::registered(area),
    };
    let count = fetch::fetch(load, &nodes, bit as usize, order, degrees, chunks);
    Ok(count as u64)
}

// Lists the chunks to fetch for an entry bit, each behind all that its edges lead to, by their lowest atoms, and tells how many there are.
pub fn start_order(
    load: &Load,
    n: usize,
    fixed: &[u32],
    area: &[u32],
    bit: u64,
    chunks: &mut [u32],
) -> Result<u64, Refusal>
    ensures result_value { of_number result ≡ (started (lent_by load.now) fixed.now n area.now bit chunks.old).answer }
    ensures chunks_after { chunks.new ≡ (started (lent_by load.now) fixed.now n area.now bit chunks.old).chunks }
{
    let mut degrees = [0u32; 1024];
    let mut order = [0u32; 1024];
    let area = Area { n, numbers: area };
    listed_row(load, n, fixed, area.numbers, &mut degrees, &mut order)?;
    go_on(load, &area, bit, &order, &mut degrees, chunks)
}
