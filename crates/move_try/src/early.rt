// Step 1, before anything is written.
ghost use Rattle.std.specs.Prelude.{◌≡◌, ◌&&◌, ◌+◌, ◌*◌, ◌≤◌, ◌<◌, eqb, length, get_or};
ghost use Rattle.move_area.specs.Bodies.{lane_at};

use move_area::{ACYCLIC, Area};

// The graph has a cycle, and node x is outside the stored component.
pub fn outside(area: &Area, x: usize) -> bool
    requires { (x < area.now.n) × (area.now.n * area.now.n + 24 + 24 * area.now.n ≤ length area.now.numbers.now) }
    ensures { result ≡ eqb (get_or area.now.numbers.now (area.now.n * area.now.n + 2) 0) 0 && eqb (get_or area.now.numbers.now (lane_at area.now.n 10 + x) 0) 0 }
{
    let component = area.n * area.n + 24 + 10 * area.n;
    area.header(ACYCLIC) == 0 && area.numbers[component + x] == 0
}
