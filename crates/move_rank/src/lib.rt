// Which of two placements of one load ranks first: by chunks, then by edges, then by the atoms' sets.
#![tactic(auto)]

ghost use Rattle.std.specs.Prelude.{◌≡◌, ℕ, ◌<◌, List, MatchOption};
ghost use Rattle.entry_set.specs.Sets.{Holds};
ghost use Rattle.move_ledger.specs.Graph.{Load};
ghost use Rattle.move_questions.specs.Answers.{place_in, set_of};
ghost use Rattle.move_rank.specs.Rank.{one_by_one};
ghost use Rattle.move_rank.specs.Rank as plans;
ghost use Rattle.move_rank.specs.Ranking.{of_ranked};
ghost use Rattle.move_rank.specs.Atoms.{CanRead, Placed, Both, Alike, Differ};

use entry_set::EntrySet;
use move_area::Area;
use move_questions::{atom_set, chunk_count, edge_count};
use std::cmp::Ordering;

// Where the sets of a placement's atoms are read: the area, and how many atoms it places.
// stays: it lends a slice and is neither compared nor printed, so no more is derived.
#[derive(Clone, Copy)]
struct Placement<'p> {
    area: Area<'p>,
    atoms: usize,
    ghost readable: { CanRead atoms area.n area.numbers.now },
}

impl Placement<'_> {
    // The set of atom i.
    fn set_of(&self, i: usize) -> EntrySet
        requires { i < self.now.atoms }
        ensures { Holds (set_of self.now.area.numbers.now self.now.area.n i) result }
    {
        atom_set(&self.area, i)
    }
}

// The first atom whose two sets differ.
fn first_difference(first: &Placement, second: &Placement) -> Option<usize>
    requires { first.now.atoms ≡ second.now.atoms }
    ensures { MatchOption result (Alike (set_of first.now.area.numbers.now first.now.area.n) (set_of second.now.area.numbers.now second.now.area.n) first.now.atoms) (Differ (set_of first.now.area.numbers.now first.now.area.n) (set_of second.now.area.numbers.now second.now.area.n) first.now.atoms) }
{
    for i in 0..first.atoms {
        if first.set_of(i) != second.set_of(i) {
            return Some(i);
        }
    }
    None
}

// By the atoms' sets as numbers, from atom 0.
fn rank_sets(first: &Placement, second: &Placement) -> Ordering
    requires { first.now.atoms ≡ second.now.atoms }
    ensures { (p q : List ℕ) → Placed first.now.atoms first.now.area.n first.now.area.numbers.now p → Placed first.now.atoms second.now.area.n second.now.area.numbers.now q → of_ranked result ≡ one_by_one p q }
{
    match first_difference(first, second) {
        Some(i) => {
            let x = first.set_of(i);
            let y = second.set_of(i);
            x.cmp(&y)
        }
        None => Ordering::Equal,
    }
}

// Fewer chunks first, then fewer edges, then the atoms' sets. Both areas are checked and of one load of a atoms.
// stays: two lists and one n: of two `Area`s each clause would have to say that their N agree, no plainer. a is the number of atoms that they place, no list's length.
pub fn rank(first: &[u32], second: &[u32], n: usize, a: usize) -> Ordering
    requires { (load : Load) × Both load a n first.now second.now }
    ensures { (load : Load) → Both load a n first.now second.now → of_ranked result ≡ plans.rank load (place_in load n first.now) (place_in load n second.now) }
{
    let first = Area { n, numbers: first };
    let second = Area { n, numbers: second };
    let chunks = chunk_count(&first).cmp(&chunk_count(&second));
    let edges = edge_count(&first).cmp(&edge_count(&second));
    match chunks.then(edges) {
        Ordering::Equal => {
            let first = Placement {
                area: first,
                atoms: a,
            };
            let second = Placement {
                area: second,
                atoms: a,
            };
            rank_sets(&first, &second)
        }
        decided => decided,
    }
}
