// The two questions over the dependency flags: would a merge close a cycle, and does one chunk reach another; in counted.rt the same where merged chunks stand for their target.
#![tactic(auto)]

pub mod counted; // counted.rt: where merged chunks stand for the end of their merges

ghost use Rattle.std.specs.Prelude.{◌≡◌, ◌+◌, ◌*◌, ◌<◌, ◌≤◌, length};
ghost use Rattle.graphs.specs.Lists.{below, some_below};
ghost use Rattle.graphs.specs.Walk.{via};
ghost use Rattle.graph_walks.specs.Closed.{flag_edge};
ghost use Rattle.merge_state.specs.Methods.{warns};
ghost use Rattle.merge_warning.specs.Hits.{hit_at};

use graph_walks::{FlagRows, closure};

// Chunk x is marked and depends on source.
fn hits(rows: &FlagRows, source: usize, marks: &[u32], x: usize) -> bool
    requires { (x * rows.now.stride + source < length rows.now.flags.now) × (x < length marks.now) × (x < rows.now.count) × (source < rows.now.count) }
    ensures { result ≡ hit_at rows.now.flags.now rows.now.stride rows.now.count source marks.now x }
{
    marks[x] != 0 && rows.flags[x * rows.stride + source] != 0
}

// Some marked chunk depends on source.
fn some_hit(rows: &FlagRows, source: usize, marks: &[u32]) -> bool
    requires { (source < rows.now.count) × (rows.now.count ≤ length marks.now) }
    ensures { result ≡ some_below (hit_at rows.now.flags.now rows.now.stride rows.now.count source marks.now) rows.now.count }
{
    for x in 0..rows.count {
        if hits(rows, source, marks, x) {
            return true;
        }
    }
    false
}

// stays: warn and reaches, beside warn_counted and reaches_counted of counted.rt. Only the two arrays and the walk are alike; a trait for both would need the
// tests, the marks' laws and the ranges as members: no plainer. Source and target are two numbers of each question here, and the rows are asked many: a row type
// that kept them in range would be made for each question.
// stays: memory is fixed, nothing is on the heap: marks and stack are arrays, and the rows' count fits them.

// The warning about merging source into target.
pub fn warn(rows: &FlagRows, source: usize, target: usize) -> bool
    requires { (rows.now.count ≤ 1024) × (source < rows.now.count) × (target < rows.now.count) }
    ensures { result ≡ warns (flag_edge rows.now.flags.now rows.now.stride rows.now.count) rows.now.count source target }
{
    let mut marks = [0u32; 1024];
    let mut stack = [0u32; 1024];
    closure(rows, source, target, 1, &mut marks, &mut stack);
    marks[target] != 0 || some_hit(rows, source, &marks)
}

// `from` reaches `to` in one step or more.
pub fn reaches(rows: &FlagRows, from: usize, to: usize) -> bool
    requires { (rows.now.count ≤ 1024) × (from < rows.now.count) × (to < rows.now.count) }
    ensures { result ≡ via (flag_edge rows.now.flags.now rows.now.stride rows.now.count) (below rows.now.count) from to }
{
    let mut marks = [0u32; 1024];
    let mut stack = [0u32; 1024];
    closure(rows, from, from, 1, &mut marks, &mut stack);
    marks[to] != 0
}
