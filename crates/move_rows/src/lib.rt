// What comes before a later call of the move graph: the rows 1 to 6 and 9.
#![tactic(auto)]

ghost use Rattle.std.specs.Prelude.{◌≡◌, ◌*◌, ◌<◌, length, get_or};

pub mod check;
pub mod listed;

use move_area::Area;

// How many sets are registered.
// stays: what `Area::registered` says too. By a rule of the project (docs/DECISIONS.md) what is public stays.
pub fn registered(area: &Area) -> usize
    requires { area.now.n * area.now.n < length area.now.numbers.now }
    ensures { result ≡ get_or area.now.numbers.now (area.now.n * area.now.n) 0 }
{
    area.registered()
}
