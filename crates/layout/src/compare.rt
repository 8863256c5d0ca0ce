// Tests on every number of a part of a list, compiled to vector code.
ghost use Rattle.graphs.specs.Bools.{Decides};
ghost use Rattle.layout.specs.Compare.{Within, CanCompare, SamePart, PartUpTo, PartBelow};

// stays: place and length stand beside the list: the clauses speak of places in the whole list, as does what is asked of an area's numbers. Over a
// lent part each caller would have to carry the fact back: no plainer.

// The n numbers of a from `at` on are those of b from `from` on.
pub fn same_numbers(a: &[u32], at: usize, b: &[u32], from: usize, n: usize) -> bool
    requires { CanCompare a.now at b.now from n }
    ensures { Decides (SamePart a.now at b.now from n) result }
{
    a[at..at + n] == b[from..from + n]
}

// Each of the k numbers from `at` on is at most `bound`.
pub fn none_above(list: &[u32], at: usize, k: usize, bound: u32) -> bool
    requires { Within list.now at k }
    ensures { Decides (PartUpTo list.now at k bound) result }
{
    let mut fits = true;
    // no early exit, so that this is vector code
    for &x in &list[at..at + k] {
        fits &= x <= bound;
    }
    fits
}

// Each of the k numbers from `at` on is below `bound`.
pub fn all_below(list: &[u32], at: usize, k: usize, bound: u32) -> bool
    requires { Within list.now at k }
    ensures { Decides (PartBelow list.now at k bound) result }
{
    if bound == 0 {
        return k == 0;
    }
    none_above(list, at, k, bound - 1)
}
