// The acyclic flag and the component of a loaded area.
ghost use Rattle.graphs.specs.Slots.{slot_edge};
ghost use Rattle.move_loading.specs.Steps.{CanWriteFlags, FlagsWritten};

use graph_neighbours::Slots;

// stays: a writer has N and the list itself, as move_fixed says; `n` is the lanes' distance there, not a list's length.
// stays: memory is fixed, nothing is on the heap: the component's flags stand in an array.

// Whether the slots' graph has a cycle. If it has none, the acyclic flag is set; else its component is written. The slots are grouped in `heads` and
// `list`.
pub fn write_flags(
    area: &mut [u32],
    n: usize,
    slots: &Slots,
    heads: &mut [u32],
    list: &mut [u32],
) -> bool
    requires { CanWriteFlags area.old n slots.now.count slots.now.sources.now slots.now.targets.now heads.old list.old }
    ensures { FlagsWritten (slot_edge slots.now.sources.now slots.now.targets.now slots.now.count) n area.old result area.new }
{
    let mut flags = [0u32; 1024];
    let header = n * n;
    graph_neighbours::group(slots, n, heads, list);
    if graph_slots::cyclic_component(slots, n, heads, list, &mut flags) {
        layout::copy(area, header + 24 + 10 * n, &flags, 0, n);
        return true;
    }
    area[header + 2] = 1;
    false
}
