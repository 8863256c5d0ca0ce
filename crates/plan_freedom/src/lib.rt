// How free a plan is: the call, for any numbers and lists.
// stays: the C interface. The call takes what C lends, load, n, fixed and area, one by one, and asks nothing of it: no fact is there for a struct to keep.
#![tactic(auto)]

ghost use Rattle.std.specs.Prelude.{◌≡◌};
ghost use Rattle.move_load_view.specs.View.{lent_by};
ghost use Rattle.plan_freedom.specs.Told.{told, of_freedom};

use move_area::Area;
use move_freedom::Counts;
use move_load_view::Load;
use refusals::Refusal;

// For every atom and every occupied set other than its own: how many moves would be accepted, rejected, or refused as the atom is fixed.
pub fn freedom(load: &Load, n: usize, fixed: &[u32], area: &[u32]) -> Result<Counts, Refusal>
    ensures { of_freedom result ≡ told (lent_by load.now) fixed.now n area.now }
{
    let area = Area { n, numbers: area };
    move_rows::check::later_row(load, n, fixed, area.numbers)?;
    Ok(move_freedom::how_free(load, fixed, &area))
}
