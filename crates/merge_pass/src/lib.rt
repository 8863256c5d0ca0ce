// The pass that commits merges: each chunk that needs creation is merged into its proposal, or created.
#![tactic(auto)]

ghost use Rattle.std.specs.Prelude.{◌≡◌, not, ◌&&◌};
ghost use Rattle.graphs.specs.Count.{ind};
ghost use Rattle.merge_state.specs.Methods.{warn};
ghost use Rattle.merge_state.specs.State.{None};
ghost use Rattle.merge_state.specs.Named.{number_of, Proper};
ghost use Rattle.merge_area.specs.Read.{read};
ghost use Rattle.merge_reads.specs.Pass.{CanPlace};
ghost use Rattle.merge_pass.specs.Turns.{kind_in, number_in, PlacedIn, CanPass, PassedIn};

use merge_area::Area;
use merge_area::places::{CREATED, INITIAL, MADE, Places};
use merge_questions::warns;
use merge_state::{ChunkIdx, Sizes};

// What a candidate is given: the chunk that it is merged into, or the number that it is created with.
#[derive(Clone, Copy, PartialEq, Eq, Debug)]
pub enum Placed {
    Merged(ChunkIdx),
    Created(u32),
}

impl Placed {
    // 0 merged, 1 created.
    pub fn kind(self) -> u32
        ensures { result ≡ kind_in self }
    {
        match self {
            Placed::Merged(_) => 0,
            Placed::Created(_) => 1,
        }
    }

    // The chunk's number, or the one that it is created with.
    pub fn number(self) -> u32
        ensures { result ≡ number_in self }
    {
        match self {
            Placed::Merged(target) => target.0,
            Placed::Created(number) => number,
        }
    }
}

// Chunk x may be merged into the proposal p: it is unbarred and unwarned.
fn may_merge(area: &Area, x: ChunkIdx, p: ChunkIdx, barred: bool) -> bool
    requires { CanPlace area.now.sizes area.now.numbers.now x.0 p.0 × (p.0 ≡ None → ⊥) }
    ensures { result ≡ (not barred && not (warn (read area.now.sizes area.now.numbers.now) x.0 p.0)) }
{
    !barred && !warns(area, x, p)
}

// stays: sizes, and the area that is written, as in merge_writes. Proposals, bars, kinds and numbers are four lists of u32 that C lends.

// Candidate x is merged into its proposal, or created.
fn place(
    sizes: Sizes,
    area: &mut [u32],
    x: ChunkIdx,
    proposal: Option<ChunkIdx>,
    barred: bool,
) -> Placed
    requires { CanPlace sizes area.old x.0 (number_of proposal) × Proper proposal }
    ensures { PlacedIn sizes area.old x.0 (number_of proposal) (ind barred) result area.new }
{
    let standing = Area {
        sizes,
        numbers: area,
    };
    match proposal {
        Some(p) if may_merge(&standing, x, p, barred) => {
            merge_dependencies::merge(sizes, area, p, x);
            Placed::Merged(p)
        }
        _ => {
            let places = Places { sizes };
            let number = places.header(area, INITIAL) + places.header(area, CREATED);
            merge_writes::create(sizes, area, x);
            Placed::Created(number)
        }
    }
}

// Every chunk that waits for creation, in rising index.
// stays: j goes on only where a chunk waits, and is the place in four lists: as an iterator over all four it would be advanced by hand at the same line: no plainer.
pub fn commit(
    sizes: Sizes,
    area: &mut [u32],
    proposals: &[u32],
    bars: &[u32],
    kinds: &mut [u32],
    numbers: &mut [u32],
)
    requires { CanPass sizes area.old proposals.now bars.now kinds.old numbers.old }
    ensures { PassedIn sizes area.old proposals.now bars.now area.new kinds.new numbers.new }
{
    let made = Places { sizes }.header(area, MADE) as usize;
    let mut j = 0;
    for k in 0..made {
        let standing = Area {
            sizes,
            numbers: area,
        };
        if standing.is_waiting(k) {
            let proposal = ChunkIdx::named(proposals[j]);
            let placed = place(sizes, area, ChunkIdx(k as u32), proposal, bars[j] != 0);
            kinds[j] = placed.kind();
            numbers[j] = placed.number();
            j += 1;
        }
    }
}
