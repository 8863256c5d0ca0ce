// The chunks to fetch on a checked area: which are wanted, their lowest atoms, then turn by turn.
// stays: memory is fixed, nothing is on the heap.
ghost use Rattle.move_load_view.specs.View.{lent_by};
ghost use Rattle.start_order.specs.Calls.{CanFetch, Fetched};

use crate::nodes::Nodes;
use move_load_view::Load;

// Lists the chunks to fetch, and tells how many there are. `order` has the nodes by rising sets, `degrees` each node's number of edges.
pub(crate) fn fetch(
    load: &Load,
    nodes: &Nodes,
    bit: usize,
    order: &[u32],
    degrees: &mut [u32],
    chunks: &mut [u32],
) -> usize
    requires { CanFetch (lent_by load.now) nodes.now bit order.now degrees.old chunks.old }
    ensures { Fetched (lent_by load.now) nodes.now.area.n nodes.now.area.numbers.now bit chunks.old chunks.new result }
{
    let mut marks = [0u32; 1024];
    let mut low = [0u32; 1024];
    crate::wanted::mark(load, nodes, bit, &mut marks);
    crate::atoms::lowest(nodes, load.atoms, &mut low);
    let order = &order[..nodes.registered];
    crate::turns::list(nodes, load.atoms, order, &low, &mut marks, degrees, chunks)
}
