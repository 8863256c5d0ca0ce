// How many chunks an area has after an accepted move, from what the move changed.
ghost use Rattle.std.specs.Prelude.{◌≡◌};
ghost use Rattle.move_try.specs.Areas.{chunks_after};
ghost use Rattle.move_try.specs.Commit.{CanCountChunks};

use move_area::{Area, OCCUPIED};

// How many sets have an atom: one more where the target had none, one fewer where the atom's node has none left. `counts` has the counts after the
// move.
pub fn chunks_after(area: &Area, atom: usize, to: usize, counts: &[u32]) -> u32
    requires { CanCountChunks area.now.numbers.now area.now.n atom to counts.now }
    ensures { result ≡ chunks_after area.now.n counts.now atom to area.now.numbers.now }
{
    let members = area.n * area.n + 24 + 8 * area.n;
    let came = u32::from(area.numbers[members + to] == 0);
    let left = u32::from(counts[area.node_of(atom)] == 0);
    area.header(OCCUPIED) + came - left
}
