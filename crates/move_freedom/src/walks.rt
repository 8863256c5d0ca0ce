// The two walks of an atom, and what they leave open.
// stays: the arrays have a fixed length, since memory is fixed and nothing is on the heap.
ghost use Rattle.std.specs.Prelude.{◌≡◌, not, ◌&&◌, ◌+◌, eqb, length};
ghost use Rattle.graphs.specs.Count.{count};
ghost use Rattle.graphs.specs.Slots.{slot_edge};
ghost use Rattle.move_free_walks.specs.ByMarks.{free_by};
ghost use Rattle.move_freedom.specs.Tally.{has_atom};
ghost use Rattle.move_freedom.specs.Walks.{CanOpen};

use super::flags::{Flags, NODES};
use super::reach::reach;
use super::steps::{flag_targets, steps};
use graph_neighbours::Slots;

// How many of the nodes with these atom counts an atom of node `own` may go to, where there is no cycle without the atom. The slots have it at the node
// behind them.
pub fn open_nodes(counts: &[u32], own: usize, slots: &Slots) -> u32
    requires { CanOpen counts.now slots.now.sources.now slots.now.targets.now slots.now.count }
    ensures { let z = length counts.now in result ≡ count (λ X. has_atom counts.now X && (not (eqb X own) && free_by (slot_edge slots.now.sources.now slots.now.targets.now slots.now.count) z (z + 1) X)) z }
{
    let z = counts.len();
    let node = z as u32;
    let turned = Slots {
        sources: slots.targets,
        targets: slots.sources,
        count: slots.count,
    };
    let mut forth = [0u32; NODES];
    let mut flags = Flags {
        ahead: [false; NODES],
        behind: [false; NODES],
        out: [false; NODES],
        back: [0; NODES],
    };
    reach(slots, z + 1, z, &mut forth);
    reach(&turned, z + 1, z, &mut flags.back);
    steps(slots, node, &forth, &mut flags.ahead);
    steps(&turned, node, &flags.back, &mut flags.behind);
    flag_targets(slots, |u, v| u != v && u == node, &mut flags.out);
    flags.open_nodes(counts, own)
}
