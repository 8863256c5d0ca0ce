// The two questions where merged chunks stand for the end of their merges: about the source and the target of the rows.
ghost use Rattle.std.specs.Prelude.{◌≡◌, ◌&&◌, ◌+◌, ◌*◌, ◌<◌, ◌≤◌, length, eqb};
ghost use Rattle.graphs.specs.Lists.{below, some_below};
ghost use Rattle.graphs.specs.Walk.{via};
ghost use Rattle.graph_walks.specs.Closed.{flag_edge};
ghost use Rattle.graph_walks.specs.Counted.{counted};
ghost use Rattle.graph_walks.specs.Ends.{end_at, end_edge};
ghost use Rattle.merge_state.specs.State.{yes};
ghost use Rattle.merge_state.specs.Methods.{warns};
ghost use Rattle.merge_warning.specs.EndHits.{names, end_hit};

use graph_walks::end_rows::{EndRows, closure_ends};

// The flag is set, and the end of its chunk is source.
fn is_named(flag: u32, end: u32, source: usize) -> bool
    ensures { result ≡ yes flag && eqb end source }
{
    flag != 0 && end as usize == source
}

// Row i names a chunk whose end is source.
fn row_names(rows: &EndRows, i: usize) -> bool
    requires { i * rows.now.stride + rows.now.count ≤ length rows.now.flags.now }
    ensures { result ≡ some_below (names rows.now.flags.now rows.now.stride rows.now.count rows.now.ends.now rows.now.source i) rows.now.count }
{
    let from = i * rows.stride;
    for j in 0..rows.count {
        if is_named(rows.flags[from + j], rows.ends[j], rows.source) {
            return true;
        }
    }
    false
}

// Row i is one of a marked chunk other than source, and names a chunk whose end is source.
#[tactic(auto, unfolding(crate::specs::EndHits::end_hit))]
fn end_hits(rows: &EndRows, marks: &[u32], i: usize) -> bool
    requires { (i < rows.now.count) × (end_at rows.now.ends.now i < length marks.now) }
    ensures { result ≡ end_hit rows.now.flags.now rows.now.stride rows.now.count rows.now.ends.now rows.now.source marks.now i }
{
    let x = rows.ends[i] as usize;
    marks[x] != 0 && x != rows.source && row_names(rows, i)
}

// Some marked chunk depends on source.
fn some_end_hit(rows: &EndRows, marks: &[u32]) -> bool
    requires { rows.now.count ≤ length marks.now }
    ensures { result ≡ some_below (end_hit rows.now.flags.now rows.now.stride rows.now.count rows.now.ends.now rows.now.source marks.now) rows.now.count }
{
    for i in 0..rows.count {
        if end_hits(rows, marks, i) {
            return true;
        }
    }
    false
}

// stays: memory is fixed, nothing is on the heap: marks and stack are arrays, and the rows' count fits them.

// The warning about merging source into target, by the dependencies that count but the direct one.
pub fn warn_counted(rows: &EndRows) -> bool
    requires { rows.now.count ≤ 1024 }
    ensures { result ≡ warns (end_edge rows.now.flags.now rows.now.stride rows.now.count rows.now.ends.now rows.now.source rows.now.target) rows.now.count rows.now.source rows.now.target }
{
    let mut marks = [0u32; 1024];
    let mut stack = [0u32; 1024];
    closure_ends(rows, 1, &mut marks, &mut stack);
    marks[rows.target] != 0 || some_end_hit(rows, &marks)
}

// The end of source reaches that of target in one step or more of the dependencies that count.
pub fn reaches_counted(rows: &EndRows) -> bool
    requires { rows.now.count ≤ 1024 }
    ensures { result ≡ via (counted (flag_edge rows.now.flags.now rows.now.stride rows.now.count) (end_at rows.now.ends.now) rows.now.count) (below rows.now.count) (end_at rows.now.ends.now rows.now.source) (end_at rows.now.ends.now rows.now.target) }
{
    let mut marks = [0u32; 1024];
    let mut stack = [0u32; 1024];
    let x = rows.ends[rows.source] as usize;
    let y = rows.ends[rows.target] as usize;
    let own = EndRows {
        flags: rows.flags,
        stride: rows.stride,
        count: rows.count,
        ends: rows.ends,
        source: x,
        target: x,
    };
    closure_ends(&own, 1, &mut marks, &mut stack);
    marks[y] != 0
}
