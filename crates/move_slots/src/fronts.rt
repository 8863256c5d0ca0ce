// The node of each facade edge's source, from the nodes' sets and atom counts. The set of node x stands in eight lanes of an area, word j at
// at + j * stride + x.
ghost use Rattle.std.specs.Prelude.{◌≡◌, length};
ghost use Rattle.entry_set.specs.Lanes.{lanes};
ghost use Rattle.move_slots.specs.Facades.{fronts_in, CanFront, Fronted, CanFronts};

use super::slots::NONE;
use entry_set::EntrySet;

// Node x, whose set stands at `at`, is the source of its bit's facade edge, where its set has one bit that `out` has a place for and it has an atom.
fn front(area: &[u32], at: usize, stride: usize, count: u32, x: u32, out: &mut [u32])
    requires { CanFront area.now at stride out.old }
    ensures { Fronted (lanes area.now at stride) count x out.old out.new }
{
    if count == 0 {
        return;
    }
    if let Some(bit) = EntrySet::read_lanes(area, at, stride).single_bit() {
        if bit < out.len() {
            out[bit] = x;
        }
    }
}

// For each entry bit the node whose set is that bit alone and that has an atom; None where there is none. `counts` has each node's atom count.
// stays: the area and its numbers come one by one. By a rule of the project (docs/DECISIONS.md) what is public asks no more from one version to the next, and
// `Lanes` asks for eight whole lanes, and for no more counts than a lane is long.
pub fn facades(area: &[u32], at: usize, stride: usize, counts: &[u32], out: &mut [u32])
    requires { CanFronts area.now at stride counts.now out.old }
    ensures { out.new ≡ fronts_in area.now at stride (length counts.now) counts.now (length out.old) }
{
    out.fill(NONE);
    for (x, &count) in counts.iter().enumerate() {
        front(area, at + x, stride, count, x as u32, out);
    }
}
