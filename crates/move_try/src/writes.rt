// What step 3 writes into the area.
// stays: a writer has N and the list itself, as move_fixed says; `n` is the lanes' distance there, not a list's length.
ghost use Rattle.std.specs.Prelude.{◌≡◌, ◌+◌, ◌*◌, ◌≤◌, length};
ghost use Rattle.layout.specs.Patch.{patch, part};
ghost use Rattle.move_area.specs.Calls.{next};
ghost use Rattle.move_edges.specs.Matrix.{matrix};
ghost use Rattle.move_edges.specs.Steps.{Changed};
ghost use Rattle.move_try.specs.Areas.{counter_in, raised, totalled, chunks_after, edges_after, committed};
ghost use Rattle.move_try.specs.Commit.{CanFollow, CanCommit};

use super::totals::chunks_after;
use graph_neighbours::Slots;
use move_area::Area;
use move_edges::Changes;

// The next walk counter. After the last one all marks are cleared, and it starts again.
pub fn raise(area: &mut [u32], n: usize) -> u32
    requires { n * n + 24 + 24 * n ≤ length area.old }
    ensures value { result ≡ next (counter_in n area.old) }
    ensures area_after { area.new ≡ raised n area.old }
{
    let square = n * n;
    let at = square + 24 + 9 * n;
    let counter = move_counter::begin(area[square + 1], &mut area[at..at + n]);
    area[square + 1] = counter;
    counter
}

// The edges of the old slots become those of as many new ones, and how many come and go.
fn follow(area: &mut [u32], n: usize, old: &Slots, new: &Slots) -> Changes
    requires { CanFollow area.old n old.now.sources.now old.now.targets.now new.now.sources.now new.now.targets.now old.now.count }
    ensures changed { Changed n old.now.sources.now old.now.targets.now new.now.sources.now new.now.targets.now old.now.count result.appeared result.vanished }
    ensures area_after { area.new ≡ patch 0 (matrix new.now.sources.now new.now.targets.now n old.now.count) area.old }
{
    move_edges::update(&mut area[..n * n], n, old, new)
}

// The two totals of the header.
fn write_totals(area: &mut [u32], n: usize, chunks: u32, edges: u32)
    requires { n * n + 24 + 24 * n ≤ length area.old }
    ensures { area.new ≡ totalled n chunks edges area.old }
{
    let square = n * n;
    area[square + 3] = chunks;
    area[square + 4] = edges;
}

// An accepted move: edges, totals and counts, the atom's node, no cycle and no component; and how many edges come and go.
pub fn commit(
    area: &mut [u32],
    n: usize,
    atom: usize,
    to: usize,
    old: &Slots,
    new: &Slots,
    counts: &[u32],
) -> Changes
    requires { CanCommit area.old n atom to old.now.sources.now old.now.targets.now new.now.sources.now new.now.targets.now old.now.count counts.now }
    ensures changed { Changed n old.now.sources.now old.now.targets.now new.now.sources.now new.now.targets.now old.now.count result.appeared result.vanished }
    ensures area_after { area.new ≡ committed n (matrix new.now.sources.now new.now.targets.now n old.now.count) (part 0 n counts.now) atom to (chunks_after n counts.now atom to area.old) (edges_after n result.appeared result.vanished area.old) area.old }
{
    let square = n * n;
    let lanes = square + 24;
    let chunks = chunks_after(&Area { n, numbers: area }, atom, to, counts);
    let edges = area[square + 4];
    let changes = follow(area, n, old, new);
    write_totals(area, n, chunks, edges + changes.appeared - changes.vanished);
    layout::copy(area, lanes + 8 * n, counts, 0, n);
    area[lanes + 24 * n + atom] = to as u32;
    area[square + 2] = 1;
    layout::fill_with(area, lanes + 10 * n, n, 0);
    changes
}
