// How many other chunks the moved atom's chunk reaches, where the moved graph has no cycle.
// stays: memory is fixed, nothing is on the heap.
ghost use Rattle.std.specs.Prelude.{◌≡◌, ◌≤◌, ◌<◌, eqb, length, get_or};
ghost use Rattle.graphs.specs.Count.{count};
ghost use Rattle.graphs.specs.Lists.{below};
ghost use Rattle.graphs.specs.Walk.{via};
ghost use Rattle.graph_neighbours.specs.Lists.{edge, Graph};
ghost use Rattle.move_try.specs.Reached.{CanReach};

use move_area::Area;

// How many of the numbers are the mark.
fn count_marked(marks: &[u32], mark: u32) -> u32
    requires { length marks.now ≤ 1024 }
    ensures { result ≡ count (λ x. eqb (get_or marks.now x 0) mark) (length marks.now) }
{
    // a sum of ones, which is vector code; a filter's count is not
    marks.iter().map(|&x| u32::from(x == mark)).sum()
}

// How many nodes `to` reaches in one step or more, by a walk with marks of its own.
fn walk(heads: &[u32], list: &[u32], n: usize, to: usize) -> u32
    requires { Graph heads.now list.now n × (n ≤ 1024) × (to < n) }
    ensures { result ≡ count (via (edge heads.now list.now n) (below n) to) n }
{
    let mut marks = [0u32; 1024];
    graph_slots::reach(heads, list, n, 1, to, &mut marks);
    count_marked(&marks[..n], 1)
}

// The same after step 3's test: where the graph had no cycle before, the test's own walk has marked these nodes with the counter.
pub fn reached(area: &Area, to: usize, heads: &[u32], list: &[u32]) -> u32
    requires { CanReach area.now.numbers.now area.now.n to heads.now list.now }
    ensures { result ≡ count (via (edge heads.now list.now area.now.n) (below area.now.n) to) area.now.n }
{
    let square = area.n * area.n;
    if area.numbers[square + 2] == 0 {
        return walk(heads, list, area.n, to);
    }
    let marks = square + 24 + 9 * area.n;
    count_marked(
        &area.numbers[marks..marks + area.n],
        area.numbers[square + 1],
    )
}
