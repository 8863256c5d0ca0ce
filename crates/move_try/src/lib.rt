// A move on a consistent area, after the checks up to row 12: steps 1 to 3.
// stays: a writer has N and the list itself, as move_fixed says; `n` is the lanes' distance there, not a list's length.
#![tactic(auto)]

ghost use Rattle.entry_set.specs.Sets.{number};
ghost use Rattle.move_load_view.specs.View.{lent_by};
ghost use Rattle.move_try.specs.Settle.{answer_of};
ghost use Rattle.move_try.specs.Tried.{CanTry, Answers};

use entry_set::EntrySet;
use move_area::Area;
use move_load_view::Load;

// What an accepted move reports: how many distinct edges the graph has afterwards that it hadn't before, and the other way round, and how many other
// chunks the moved atom's chunk then reaches.
#[derive(Clone, Copy, PartialEq, Eq, Debug)]
pub struct Moved {
    pub appeared: u32,
    pub vanished: u32,
    pub reached: u32,
}

mod early;
mod reach;
mod settle;
mod target;
mod test;
mod totals;
mod trial;
mod writes;

// A move of the atom to the target set; None where it is rejected. The area is consistent, and rows 10 to 12 don't fit.
pub fn try_checked(
    load: &Load,
    n: usize,
    area: &mut [u32],
    atom: usize,
    target: EntrySet,
) -> Option<Moved>
    requires { CanTry (lent_by load.now) n area.old atom (number target) }
    ensures { Answers (lent_by load.now) n area.old atom (number target) (answer_of result) area.new }
{
    let square = n * n;
    let from = area[square + 24 + 24 * n + atom] as usize;
    if early::outside(&Area { n, numbers: area }, from) {
        return None;
    }
    let registered = area[square] as usize;
    let to = target::registered_node(area, n, registered, target);
    settle::settle(load, n, area, atom, to)
}
