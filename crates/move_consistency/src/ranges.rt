// Whether the nodes, sets and marks of an area are in range.
ghost use Rattle.std.specs.Prelude.{◌≤◌};
ghost use Rattle.graphs.specs.Bools.{Decides};
ghost use Rattle.move_load_view.specs.View.{lent_by};
ghost use Rattle.move_consistency.specs.Ranges.{SetsBelow, CanRange, RangeTold};

use entry_set::EntrySet;
use move_area::Area;
use move_load_view::Load;
use set_order::Lanes;

// None of the first r sets has a bit at or above e.
fn sets_in_range(sets: &Lanes, r: usize, e: usize) -> bool
    requires { r ≤ sets.now.n }
    ensures { Decides (SetsBelow sets.now.area.now sets.now.at sets.now.n r e) result }
{
    let mut fit = true;
    // no early exit, so that several sets can be tested at once
    for x in 0..r {
        fit &= EntrySet::read_lanes(sets.area, sets.at + x, sets.n).in_range(e);
    }
    fit
}

// Whether at most n sets are registered, each atom's node is one of them, no mark is above the counter, and the sets are in range and
// distinct. If so, `order` has the registered nodes by rising sets. `spare` is scratch.
pub fn in_ranges(load: &Load, area: &Area, order: &mut [u32], spare: &mut [u32]) -> bool
    requires { CanRange load.now.atoms area.now.n area.now.numbers.now order.old spare.old }
    ensures { RangeTold (lent_by load.now) area.now.n area.now.numbers.now order.new result }
{
    let registered = area.numbers[area.n * area.n] as usize;
    if area.n < registered {
        return false;
    }
    let sets = Lanes {
        area: area.numbers,
        at: area.n * area.n + 24,
        n: area.n,
    };
    let nodes = sets.at + 24 * area.n;
    let nodes_fit = layout::all_below(
        area.numbers,
        nodes,
        load.atoms,
        area.numbers[area.n * area.n],
    );
    let counter = area.numbers[area.n * area.n + 1];
    let marks_fit = layout::none_above(area.numbers, sets.at + 9 * area.n, area.n, counter);
    let sets_fit = sets_in_range(&sets, registered, load.bits);
    sets.sort(registered, order, spare);
    let apart = sets.distinct(registered, order);
    nodes_fit & marks_fit & sets_fit & apart
}
