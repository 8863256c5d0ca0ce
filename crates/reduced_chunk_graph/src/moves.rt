// Trial moves: `try_move`.
// stays: the C interface. The calls take what C lends, load, n, fixed and area, one by one, and ask nothing of it: no fact is there for a struct to keep. n is the
// number of nodes, not a list's length.
ghost use Rattle.std.specs.Prelude.{◌≡◌};
ghost use Rattle.move_area.specs.Calls as calls;
ghost use Rattle.move_load_view.specs.View.{lent_by};
ghost use Rattle.reduced_chunk_graph.specs.Answers.{of_move};
ghost use Rattle.reduced_chunk_graph.specs.Moves.{CanGoOn, GoesOn};

use super::sets::lent_set;
use move_area::Area;
use move_load_view::Load;
use move_try::Moved;
use refusals::Refusal;

// The rows 10, 24, 11 and 12 and the move itself, on a consistent area.
fn go_on(
    load: &Load,
    n: usize,
    fixed: &[u32],
    area: &mut [u32],
    atom: usize,
    bits: &[u64],
) -> Result<Option<Moved>, Refusal>
    requires { CanGoOn (lent_by load.now) fixed.now n area.old }
    ensures { GoesOn (lent_by load.now) fixed.now n area.old atom bits.now (of_move result) area.new }
{
    if load.atoms <= atom {
        return Err(Refusal::NoSuchAtom);
    }
    if fixed[atom] != 0 {
        return Err(Refusal::AtomFixed);
    }
    let target = lent_set(bits, load.bits)?;
    let read = Area { n, numbers: area };
    if move_questions::atom_set(&read, atom) == target {
        return Err(Refusal::SetUnchanged);
    }
    Ok(move_try::try_checked(load, n, area, atom, target))
}

// Moves the atom to the set if the chunk graph then has no cycle; else the atom stays where it is, and there is no report. An accepted move reports
// how many distinct edges appeared and vanished, and how many other chunks the atom's chunk then reaches.
pub fn try_move(
    load: &Load,
    n: usize,
    fixed: &[u32],
    area: &mut [u32],
    atom: u32,
    bits: &[u64],
) -> Result<Option<Moved>, Refusal>
    ensures result_value { of_move result ≡ (calls.try_move (lent_by load.now) fixed.now n area.old atom bits.now).answer }
    ensures area_after { area.new ≡ (calls.try_move (lent_by load.now) fixed.now n area.old atom bits.now).area }
{
    move_rows::check::later_row(load, n, fixed, area)?;
    go_on(load, n, fixed, area, atom as usize, bits)
}
