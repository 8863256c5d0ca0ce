// Whether the graph of an area's placement has a cycle, by the book's search. It goes by the placement alone: no count, edge or flag that the area keeps
// is read.
#![tactic(auto)]

ghost use Rattle.std.specs.Prelude.{◌≡◌};
ghost use Rattle.move_load_view.specs.View.{lent_by};
ghost use Rattle.move_verdict.specs.Verdict.{verdict, CanSearch, SearchRoom};

use graph_colours::State;
use graph_neighbours::Slots;
use move_area::Area;
use move_load_view::Load;

// stays: memory is fixed, nothing is on the heap: the working lists are arrays.

// With lists for so many nodes, their heads and so many slots. `heads` has the atom counts first. A function of its own to the compiler at each size, so that its
// lists take no stack while a caller checks the area.
#[inline(never)]
fn search<const NODES: usize, const HEADS: usize, const SLOTS: usize>(
    load: &Load,
    area: &Area,
) -> bool
    requires can { CanSearch (lent_by load.now) area.now.n area.now.numbers.now }
    requires room { SearchRoom (lent_by load.now) area.now.n NODES HEADS SLOTS }
    ensures { result ≡ verdict (lent_by load.now) area.now.n area.now.numbers.now }
{
    let mut sources = [0u32; SLOTS];
    let mut targets = [0u32; SLOTS];
    let mut heads = [0u32; HEADS];
    let mut list = [0u32; SLOTS];
    let mut colour = [State::White; NODES];
    move_slots::fill_own_slots(load, area, &mut heads, &mut sources, &mut targets);
    let slots = Slots {
        sources: &sources,
        targets: &targets,
        count: move_slots::slot_count(load, area.n),
    };
    graph_neighbours::group(&slots, area.n, &mut heads, &mut list);
    graph_book_walk::has_cycle(&heads, &list, &mut colour[..area.n])
}

// Whether the graph of the area's placement has a cycle. No row from 1 to 6 fits, and the area's nodes and sets are in range.
pub fn has_cycle(load: &Load, area: &Area) -> bool
    requires { CanSearch (lent_by load.now) area.now.n area.now.numbers.now }
    ensures { result ≡ verdict (lent_by load.now) area.now.n area.now.numbers.now }
{
    if move_slots::is_small(load, area.n) {
        return search::<128, 129, 1024>(load, area);
    }
    search::<1024, 1025, 8448>(load, area)
}
