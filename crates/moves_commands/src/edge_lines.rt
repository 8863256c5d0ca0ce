// Command 21: the edges, a line for each, and their count. The area is checked once for all of them.
ghost use Rattle.std.specs.Prelude.{◌+◌, ◌*◌, ◌≤◌, length};
ghost use Rattle.move_ledger.specs.Graph as graph;
ghost use Rattle.move_ledger.specs.Ledger.{edge_at};
ghost use Rattle.move_load_view.specs.View.{lent_by};
ghost use Rattle.moves_replies.specs.Words.{reply};
ghost use Rattle.moves_replies.specs.Wrote.{HasRoom, Wrote};
ghost use Rattle.moves_commands.specs.Program.{areas, lines, listing};
ghost use Rattle.moves_commands.specs.Steps.{CanList, CanListAll, CanListEdges};

use crate::commands::{SETS, UNFIXED};
use move_area::Area;
use move_load_view::Load;
use move_questions::{edge_at, edge_count};
use move_rows::listed::listed_row;
use move_rows::registered;
use moves_answers::put_listed;
use moves_replies::Replies;

// An area that was checked, the nodes by rising sets, and each node's number of edges.
// stays: lists that are lent, which nobody compares or prints: more derives would be no plainer
#[derive(Clone, Copy)]
struct Listing<'l> {
    area: &'l [u32],
    order: &'l [u32],
    degrees: &'l [u32],
}

impl Listing<'_> {
    // The line of edge k, where so many sets are registered.
    fn put_line(&self, known: usize, k: u64, replies: &mut Replies)
        requires can_list { (load : graph.Load) × CanList load self.now.area.now known self.now.order.now self.now.degrees.now }
        requires room { HasRoom 64 replies.old }
        ensures { (load : graph.Load) → CanList load self.now.area.now known self.now.order.now self.now.degrees.now → Wrote (reply (areas.asks load self.now.area.now (edge_at k))) replies.old replies.new }
    {
        let area = Area {
            n: SETS,
            numbers: self.area,
        };
        let edge = edge_at(&area, known, self.order, self.degrees, k);
        put_listed(replies, edge);
    }

    // The lines of the first n edges.
    fn put_lines(&self, known: usize, n: u64, replies: &mut Replies)
        requires can_list { (load : graph.Load) × CanList load self.now.area.now known self.now.order.now self.now.degrees.now }
        requires room { HasRoom (64 * n) replies.old }
        ensures { (load : graph.Load) → CanList load self.now.area.now known self.now.order.now self.now.degrees.now → Wrote (lines (areas.asks load self.now.area.now) n) replies.old replies.new }
    {
        for k in 0..n {
            self.put_line(known, k, replies);
        }
    }

    // The lines of all edges, and then their count.
    fn put_all(&self, replies: &mut Replies)
        requires can_list_all { (load : graph.Load) × CanListAll load self.now.area.now self.now.order.now self.now.degrees.now }
        requires room { HasRoom 10240 replies.old }
        ensures { (load : graph.Load) → CanListAll load self.now.area.now self.now.order.now self.now.degrees.now → Wrote (listing (areas.asks load self.now.area.now)) replies.old replies.new }
    {
        let area = Area {
            n: SETS,
            numbers: self.area,
        };
        let known = registered(&area);
        let n = edge_count(&area);
        self.put_lines(known, n, replies);
        replies.put_edges(n);
    }
}

pub(crate) fn list_edges(load: &Load, area: &[u32], replies: &mut Replies)
    requires can_list { CanListEdges (lent_by load.now) }
    requires room { HasRoom 10240 replies.old }
    ensures { Wrote (listing (areas.asks (lent_by load.now) area.now)) replies.old replies.new }
{
    // stays: memory is fixed, nothing is on the heap
    let mut degrees = [0u32; 1024];
    let mut order = [0u32; 1024];
    let fixed = &UNFIXED[..load.atoms];
    if let Err(refusal) = listed_row(load, SETS, fixed, area, &mut degrees, &mut order) {
        replies.put_refused(refusal);
        return;
    }
    let listing = Listing {
        area,
        order: &order,
        degrees: &degrees,
    };
    listing.put_all(replies);
}
