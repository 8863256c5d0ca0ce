// Walks over rows of flags whose nodes stand for their ends.
ghost use Rattle.std.specs.Prelude.{◌≡◌, ◌<◌, ◌+◌, ◌*◌, ◌≤◌};
ghost use Rattle.graph_walks.specs.Closed.{closed};
ghost use Rattle.graph_walks.specs.Marks.{marking};
ghost use Rattle.graph_walks.specs.Ends.{end_edge, looked_at, EndRows as EndsWithin, CanScanEndRow, Swept};
ghost use Rattle.graph_walks.specs.Reads.{in_end_rows};
ghost use Rattle.graph_walks.specs.Spread.{Unmarked, CanLook, LookedWhere};

use crate::{Edges, close_over, look_where};

// Flags in rows, as in FlagRows, whose nodes stand for their ends: an edge of or on a node counts as one of or on its end. The edge of source on target is
// left out, and those of an end on itself.
// stays: Clone and Copy alone. It is lists that are lent, which nobody compares or prints: more derives are no plainer.
#[derive(Clone, Copy)]
pub struct EndRows<'f> {
    pub flags: &'f [u32],
    pub stride: usize,
    pub count: usize,
    pub ends: &'f [u32],
    pub source: usize,
    pub target: usize,
    ghost lent: { EndsWithin flags.now stride count ends.now },
    ghost first: { source < count },
    ghost second: { target < count },
}

// stays: mark, marks and stack are passed one by one, as in lib.rt: a struct of two `&mut` would be made and taken apart at each call, no plainer.

impl<'f> EndRows<'f> {
    // Whether y, the end of the node of one of t's flags, is looked at: t itself isn't, nor target where t is source.
    #[tactic(auto, unfolding(crate::specs::Ends::looked_at))]
    fn is_looked_at(&self, flag: u32, t: usize, y: usize) -> bool
        ensures { result ≡ looked_at flag self.now.source self.now.target t y }
    {
        flag != 0 && y != t && !(t == self.source && y == self.target)
    }

    // Looks at y, the end of the node of one of t's flags, where it is looked at. The flag is asked first, as few are set.
    #[tactic(auto, unfolding(crate::specs::Ends::looked_at))]
    fn look_end(
        &self,
        flag: u32,
        mark: u32,
        marks: &mut [u32],
        stack: &mut [u32],
        height: usize,
        t: usize,
        y: u32,
    ) -> usize
        requires { CanLook marks.old stack.old mark height y }
        ensures { LookedWhere (looked_at flag self.now.source self.now.target t y) marks.old stack.old mark height y marks.new stack.new result }
    {
        if flag == 0 {
            return height;
        }
        let looked = self.is_looked_at(flag, t, y as usize);
        look_where(looked, marks, stack, mark, height, y)
    }

    // Row i, if it is one of t's.
    fn scan_row(
        &self,
        mark: u32,
        marks: &mut [u32],
        stack: &mut [u32],
        height: usize,
        t: usize,
        i: usize,
    ) -> usize
        requires { CanScanEndRow self.now.flags.now self.now.stride self.now.count mark marks.old stack.old height t i }
        ensures { Swept self.now.flags.now self.now.stride self.now.count self.now.ends.now self.now.source self.now.target mark marks.old stack.old height t i self.now.count marks.new stack.new result }
    {
        if self.ends[i] as usize != t {
            return height;
        }
        let from = i * self.stride;
        let mut sp = height;
        for j in 0..self.count {
            sp = self.look_end(
                self.flags[from + j],
                mark,
                marks,
                stack,
                sp,
                t,
                self.ends[j],
            );
        }
        sp
    }
}

impl<'f> Edges for EndRows<'f> {
    ghost reads = { λ r. in_end_rows r.flags.now r.stride r.count r.ends.now r.source r.target };

    // All rows of t.
    fn scan(
        &self,
        mark: u32,
        marks: &mut [u32],
        stack: &mut [u32],
        height: usize,
        t: usize,
    ) -> usize {
        // a copy, so that where the lists lie isn't read anew after each mark
        let rows = *self;
        let mut sp = height;
        for i in 0..rows.count {
            sp = rows.scan_row(mark, marks, stack, sp, t, i);
        }
        sp
    }
}

// Marks the union of what source and target depend on, closed under dependency; the edge of source on target is passed over.
pub fn closure_ends(rows: &EndRows, mark: u32, marks: &mut [u32], stack: &mut [u32])
    requires { Unmarked rows.now.count mark marks.old stack.old }
    ensures { marks.new ≡ marking (closed (end_edge rows.now.flags.now rows.now.stride rows.now.count rows.now.ends.now rows.now.source rows.now.target) rows.now.count rows.now.source rows.now.target) mark marks.old }
{
    close_over(rows, rows.source, rows.target, mark, marks, stack);
}
