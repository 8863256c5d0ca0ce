// Step 3 on an area whose target set is registered: the move is tried in lists of its own, and stands for good where the graph then has no cycle.
// stays: a writer has N and the list itself, as move_fixed says; `n` is the lanes' distance there, not a list's length.
// stays: memory is fixed, nothing is on the heap.
ghost use Rattle.move_load_view.specs.View.{lent_by};
ghost use Rattle.move_try.specs.Settle.{answer_of, CanSettle, SettleRoom, Settled};

use super::{Moved, reach, test, trial, writes};
use graph_neighbours::Slots;
use move_area::Area;
use move_load_view::Load;

// Moves the atom to node `to` where the graph then has no cycle, and answers how many edges came and went and how many nodes `to` then reaches; with
// lists for so many nodes, their heads and so many slots. The moved placement's slots are grouped in `heads` and `list`; then the present one's stand in
// `list` and `spare`, and `heads` has its atom counts. A function of its own to the compiler at each size, so that a small load's move takes no stack for the lists
// of a large one.
#[inline(never)]
fn settle_in<const NODES: usize, const HEADS: usize, const SLOTS: usize>(
    load: &Load,
    n: usize,
    area: &mut [u32],
    atom: usize,
    to: usize,
) -> Option<Moved>
    requires can { CanSettle (lent_by load.now) n area.old atom to }
    requires room { SettleRoom (lent_by load.now) n NODES HEADS SLOTS }
    ensures { Settled (lent_by load.now) n area.old atom to (answer_of result) area.new }
{
    let mut counts = [0u32; NODES];
    let mut sources = [0u32; SLOTS];
    let mut targets = [0u32; SLOTS];
    let mut heads = [0u32; HEADS];
    let mut list = [0u32; SLOTS];
    let mut spare = [0u32; SLOTS];
    let standing = Area { n, numbers: area };
    trial::trial(
        load,
        &standing,
        atom,
        to,
        &mut counts,
        &mut sources,
        &mut targets,
    );
    let count = load.entries + load.bits;
    let moved = Slots {
        sources: &sources,
        targets: &targets,
        count,
    };
    if test::closes_cycle(area, n, to, &moved, &mut heads, &mut list) {
        return None;
    }
    let marked = Area { n, numbers: area };
    let reached = reach::reached(&marked, to, &heads, &list);
    move_slots::fill_own_slots(load, &marked, &mut heads, &mut list, &mut spare);
    let present = Slots {
        sources: &list,
        targets: &spare,
        count,
    };
    let changes = writes::commit(area, n, atom, to, &present, &moved, &counts);
    Some(Moved {
        appeared: changes.appeared,
        vanished: changes.vanished,
        reached,
    })
}

// The same at the smaller size that has room.
pub fn settle(load: &Load, n: usize, area: &mut [u32], atom: usize, to: usize) -> Option<Moved>
    requires { CanSettle (lent_by load.now) n area.old atom to }
    ensures { Settled (lent_by load.now) n area.old atom to (answer_of result) area.new }
{
    if move_slots::is_small(load, n) {
        return settle_in::<128, 129, 1024>(load, n, area, atom, to);
    }
    settle_in::<1024, 1025, 8448>(load, n, area, atom, to)
}
