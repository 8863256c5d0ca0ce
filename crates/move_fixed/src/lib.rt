// Which atoms are fixed: the area keeps 1 or 0 for each of them, whatever its mark is.
#![tactic(auto)]

ghost use Rattle.std.specs.Prelude.{◌≡◌, length};
ghost use Rattle.move_area.specs.Fixed.{flag, flagged};
ghost use Rattle.move_fixed.specs.Flags.{atoms, CanKeep};

use move_area::Area;

// Writes the flags into the area: the atoms' second lane. There is a mark for each atom.
// stays: a writer has the list itself. A struct over a lent list that is written would make each clause say, besides what is written, that N and the
// loan's end stay: no plainer.
pub fn keep(area: &mut [u32], n: usize, fixed: &[u32])
    requires { CanKeep n fixed.now area.old }
    ensures { area.new ≡ flag (atoms (length fixed.now)) fixed.now n area.old }
{
    let from = n * n + 24 + 24 * n + fixed.len();
    for (atom, &mark) in fixed.iter().enumerate() {
        area[from + atom] = u32::from(mark != 0);
    }
}

// Tells whether the area has the flags of the marks.
pub fn keeps(area: &Area, fixed: &[u32]) -> bool
    requires { CanKeep area.now.n fixed.now area.now.numbers.now }
    ensures { result ≡ flagged (atoms (length fixed.now)) fixed.now area.now.n area.now.numbers.now }
{
    let from = area.n * area.n + 24 + 24 * area.n + fixed.len();
    for (atom, &mark) in fixed.iter().enumerate() {
        if area.numbers[from + atom] != u32::from(mark != 0) {
            return false;
        }
    }
    true
}
