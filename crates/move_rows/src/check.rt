// The rows 1 to 6 and 9, which come before a later call's own.
// stays: memory is fixed, nothing is on the heap.
// stays: n and the list one by one, here and in listed.rt, as the calls have them. As an `Area` it was tried: a caller's n is then no constant to the compiler,
// and a check took up to 1.6 times as long in the program `moves`, whose n is one.
ghost use Rattle.std.specs.Prelude.{◌≡◌};
ghost use Rattle.move_load_view.specs.View.{lent_by};
ghost use Rattle.move_rows.specs.Later.{later};
ghost use Rattle.refusals.specs.Rows.{row_of};

use move_load_view::Load;
use refusals::Refusal;

// The first of the rows 1 to 6 and 9 that fits.
pub fn later_row(load: &Load, n: usize, fixed: &[u32], area: &[u32]) -> Result<(), Refusal>
    ensures { row_of result ≡ later (lent_by load.now) fixed.now n area.now }
{
    let mut degrees = [0u32; 1024];
    let mut order = [0u32; 1024];
    crate::listed::listed_row(load, n, fixed, area, &mut degrees, &mut order)
}
