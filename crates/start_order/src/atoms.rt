// The lowest atom of each node.
ghost use Rattle.start_order.specs.Lowest.{atom_node, CanLower, Lowest};

use crate::nodes::Nodes;

// Atoms are gone through from the last of a to the first, so that the lowest of each node stays.
pub(crate) fn lowest(nodes: &Nodes, a: usize, low: &mut [u32])
    requires { CanLower nodes.now.area.numbers.now a nodes.now.area.n low.old }
    ensures { Lowest (atom_node nodes.now.area.numbers.now nodes.now.area.n) 0 a low.new }
{
    for i in (0..a).rev() {
        low[nodes.area.node_of(i)] = i as u32;
    }
}
