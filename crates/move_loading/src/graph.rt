// The atom counts, the edges and how many they are, in an area whose sets and nodes stand.
ghost use Rattle.std.specs.Prelude.{◌≡◌, ◌+◌, ◌*◌, ◌≤◌, length, set};
ghost use Rattle.layout.specs.Patch.{patch};
ghost use Rattle.move_edges.specs.Matrix.{matrix};
ghost use Rattle.move_edges.specs.Steps.{CanFill};
ghost use Rattle.move_ledger.specs.Totals.{filled_cells};
ghost use Rattle.move_load_view.specs.View.{lent_by};
ghost use Rattle.move_area.specs.Checked.{Ranged};
ghost use Rattle.move_slots.specs.Filled.{CanFillOwn};
ghost use Rattle.move_loading.specs.Steps.{GraphWritten};

use graph_neighbours::Slots;
use move_area::Area;
use move_load_view::Load;

// stays: a writer has N and the list itself, as move_fixed says; `n` is the lanes' distance there, not a list's length.

// The edges of the slots, and how many they are.
fn write_edges(area: &mut [u32], n: usize, slots: &Slots)
    requires { CanFill area.old n slots.now.sources.now slots.now.targets.now slots.now.count × (n * n + 5 ≤ length area.old) }
    ensures { area.new ≡ set (patch 0 (matrix slots.now.sources.now slots.now.targets.now n slots.now.count) area.old) (n * n + 4) (filled_cells slots.now.sources.now slots.now.targets.now n slots.now.count) }
{
    area[n * n + 4] = move_edges::fill(area, n, slots);
}

// Writes them, and gives back how many slots there are; the slots stand in `sources` and `targets`.
pub fn write_graph(
    load: &Load,
    n: usize,
    area: &mut [u32],
    counts: &mut [u32],
    sources: &mut [u32],
    targets: &mut [u32],
) -> usize
    requires { CanFillOwn (lent_by load.now) n area.old counts.old sources.old targets.old × Ranged (lent_by load.now) n area.old }
    ensures { GraphWritten (lent_by load.now) n area.old counts.new sources.new targets.new result area.new }
{
    let standing = Area { n, numbers: area };
    move_slots::fill_own_slots(load, &standing, counts, sources, targets);
    let count = move_slots::slot_count(load, n);
    layout::copy(area, n * n + 24 + 8 * n, counts, 0, n);
    write_edges(
        area,
        n,
        &Slots {
            sources,
            targets,
            count,
        },
    );
    count
}
