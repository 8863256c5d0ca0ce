// Row 9 of the table of refusals, decided exactly.
ghost use Rattle.move_load_view.specs.View.{lent_by};
ghost use Rattle.move_consistency.specs.Ready.{CanCheck, Told};

use super::ranges::in_ranges;
use super::worked::is_worked;
use move_area::Area;
use move_load_view::Load;

// Whether the area is consistent: the numbers in range first, then all that is worked out from them. If so, `degrees` has how many edges start at
// each node, and `order` the registered nodes by rising sets.
// stays: N and the list come one by one. That its numbers are of 32 bits is known of a list that is lent by itself; over an `Area` it was tried, and the
// proof didn't close.
pub fn consistent(
    load: &Load,
    n: usize,
    area: &[u32],
    degrees: &mut [u32],
    order: &mut [u32],
) -> bool
    requires { CanCheck (lent_by load.now) n area.now degrees.old order.old }
    ensures { Told (lent_by load.now) n area.now degrees.new order.new result }
{
    let standing = Area { n, numbers: area };
    if !in_ranges(load, &standing, order, degrees) {
        return false;
    }
    if move_slots::is_small(load, n) {
        return is_worked::<128, 129, 1024>(load, n, area, degrees);
    }
    is_worked::<1024, 1025, 8448>(load, n, area, degrees)
}
