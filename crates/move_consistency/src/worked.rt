// Whether what is worked out from the load and the placement is what an area holds.
ghost use Rattle.graphs.specs.Bools.{Decides};
ghost use Rattle.graphs.specs.Slots.{slot_edge};
ghost use Rattle.layout.specs.Compare.{SamePart};
ghost use Rattle.move_ledger.specs.Graph.{at};
ghost use Rattle.move_load_view.specs.View.{lent_by};
ghost use Rattle.move_area.specs.Bodies.{lane_at};
ghost use Rattle.move_consistency.specs.Flags.{FlagsAre, Flagged};
ghost use Rattle.move_consistency.specs.Matched.{CanMatch, Matched};
ghost use Rattle.move_consistency.specs.Ready.{CanLane, CanFlag, CanWork, WorkTold};

use super::totals::{sum, totals_are};
use graph_neighbours::Slots;
use move_area::{ACYCLIC, Area};
use move_load_view::Load;

// stays: memory is fixed, nothing is on the heap: the working lists are arrays.

// Whether the counts in the area are these.
fn counts_hold(area: &Area, counts: &[u32]) -> bool
    requires { CanLane area.now.numbers.now area.now.n counts.now }
    ensures { Decides (SamePart area.now.numbers.now (lane_at area.now.n 8) counts.now 0 area.now.n) result }
{
    layout::same_numbers(
        area.numbers,
        area.n * area.n + 24 + 8 * area.n,
        counts,
        0,
        area.n,
    )
}

// Whether the matrix counts the slots. They are grouped by source: `heads` has where each node's part of `list` starts. `row` is scratch.
// stays: n and the numbers by value. Through an `Area` it was tried: the compiler then doesn't see the n that a caller has as a constant, as the program `moves`
// has, and the rows take 1.7 times as many steps.
fn edges_hold(
    n: usize,
    numbers: &[u32],
    slots: &Slots,
    heads: &mut [u32],
    list: &mut [u32],
    row: &mut [u32],
    degrees: &mut [u32],
) -> bool
    requires { CanMatch numbers.now n slots.now.count slots.now.sources.now slots.now.targets.now heads.old list.old row.old degrees.old }
    ensures { Matched numbers.now n slots.now.count slots.now.sources.now slots.now.targets.now heads.new list.new degrees.new result }
{
    graph_neighbours::group(slots, n, heads, list);
    move_edges::rows::check(numbers, n, heads, list, row, degrees)
}

// Whether the area has this acyclic flag and this component.
fn flags_are(area: &Area, acyclic: u32, flags: &[u32]) -> bool
    requires { CanLane area.now.numbers.now area.now.n flags.now }
    ensures { Decides (FlagsAre acyclic (at flags.now) area.now.n area.now.numbers.now) result }
{
    let component = area.n * area.n + 24 + 10 * area.n;
    let same = layout::same_numbers(area.numbers, component, flags, 0, area.n);
    same && area.header(ACYCLIC) == acyclic
}

// Whether the acyclic flag and the component are those of the slots' graph.
fn flags_hold(area: &Area, slots: &Slots, heads: &[u32], list: &[u32]) -> bool
    requires { CanFlag area.now.numbers.now area.now.n slots.now.count slots.now.sources.now slots.now.targets.now heads.now list.now }
    ensures { Decides (Flagged (slot_edge slots.now.sources.now slots.now.targets.now slots.now.count) area.now.n area.now.numbers.now) result }
{
    let mut flags = [0u32; 1024];
    let cyclic = graph_slots::cyclic_component(slots, area.n, heads, list, &mut flags);
    flags_are(area, u32::from(!cyclic), &flags)
}

// Whether counts, edges, totals, acyclic flag and component are those worked out from the load and the area's placement, with lists for so many nodes,
// their heads and so many slots. `degrees` has the atom counts first.
pub fn is_worked<const NODES: usize, const HEADS: usize, const SLOTS: usize>(
    load: &Load,
    n: usize,
    numbers: &[u32],
    degrees: &mut [u32],
) -> bool
    requires { CanWork (lent_by load.now) n numbers.now degrees.old NODES HEADS SLOTS }
    ensures { WorkTold (lent_by load.now) n numbers.now degrees.new result }
{
    let area = &Area { n, numbers };
    let mut sources = [0u32; SLOTS];
    let mut targets = [0u32; SLOTS];
    let mut heads = [0u32; HEADS];
    let mut list = [0u32; SLOTS];
    let mut row = [0u32; NODES];
    move_slots::fill_own_slots(load, area, degrees, &mut sources, &mut targets);
    let slots = Slots {
        sources: &sources,
        targets: &targets,
        count: move_slots::slot_count(load, n),
    };
    let counts_fit = counts_hold(area, degrees);
    let chunks = move_edges::rows::count_filled(&degrees[..n]);
    let edges_fit = edges_hold(n, numbers, &slots, &mut heads, &mut list, &mut row, degrees);
    let totals_fit = totals_are(area, chunks, sum(&degrees[..n]));
    let flags_fit = flags_hold(area, &slots, &heads, &list);
    counts_fit & edges_fit & totals_fit & flags_fit
}
