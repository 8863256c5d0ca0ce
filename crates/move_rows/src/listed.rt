// The rows 1 to 6 and 9 before a question about all edges: where none fits, each node's number of edges and the nodes by rising sets are left.
ghost use Rattle.move_load_view.specs.View.{lent_by};
ghost use Rattle.move_rows.specs.Listed.{NodeLists, RowTold};
ghost use Rattle.refusals.specs.Rows.{row_of};

use move_area::Area;
use move_load_view::Load;
use refusals::Refusal;

// The first of these rows that fits.
pub fn listed_row(
    load: &Load,
    n: usize,
    fixed: &[u32],
    area: &[u32],
    degrees: &mut [u32],
    order: &mut [u32],
) -> Result<(), Refusal>
    requires { NodeLists degrees.old order.old }
    ensures { RowTold (lent_by load.now) fixed.now n area.now degrees.new order.new (row_of result) }
{
    let fit = fixed.len() == load.atoms;
    move_load_rows::refusal(load, n, fit, area.len())?;
    if !move_fixed::keeps(&Area { n, numbers: area }, fixed) {
        return Err(Refusal::AreaInconsistent);
    }
    if move_consistency::consistent(load, n, area, degrees, order) {
        Ok(())
    } else {
        Err(Refusal::AreaInconsistent)
    }
}
