// The row that refuses a loading.
ghost use Rattle.std.specs.Prelude.{◌≡◌, ◌*◌, ◌≤◌, length};
ghost use Rattle.refusals.specs.Rows.{row_of};
ghost use Rattle.entry_set.specs.Sets.{width};
ghost use Rattle.merge_state.specs.Table.{first_fitting};
ghost use Rattle.merge_state.specs.Loading.{bad_load, later_load};
ghost use Rattle.merge_loading.specs.Loading.{lent_by, load_refusal};
ghost use Rattle.merge_loading.specs.Sets.{bad_index};

use crate::Loading;
use crate::sets::{any_illegal, any_twice};
use entry_set::set_width;
use merge_area::places::Places;
use merge_area::{over_limits, too_short};
use merge_rows::checks::{are_bad_starts, has_misfit};
use merge_state::Sizes;
use refusals::Refusal;

// Row 15 by the lent lists: faulty starts, or not so many sets or side effects as called for.
#[tactic(auto, unfolding(merge_state::specs::Loading::bad_load))]
fn are_bad_lists(places: Places, loading: &Loading) -> bool
    requires { length loading.now.chunks.now ≤ 1024 }
    ensures { result ≡ bad_load places.sizes (lent_by loading.now) }
{
    let sizes = places.sizes;
    are_bad_starts(loading.initial, loading.starts, loading.modules.len())
        || loading.sets.len() != loading.chunks.len() * set_width(sizes.bits)
        || loading.effects.len() != sizes.modules
}

// Row 16: a module, a set or a chunk isn't in range.
#[tactic(auto, unfolding(crate::specs::Sets::bad_index))]
fn has_bad_index(places: Places, loading: &Loading) -> bool
    requires { length loading.now.sets.now ≡ length loading.now.chunks.now * width places.sizes.bits }
    ensures { result ≡ bad_index places.sizes loading.now.initial loading.now.modules.now loading.now.sets.now loading.now.chunks.now }
{
    let sizes = places.sizes;
    let w = set_width(sizes.bits);
    has_misfit(loading.modules, sizes.modules, false)
        || any_illegal(loading.sets, w, loading.chunks.len(), sizes.bits)
        || has_misfit(loading.chunks, loading.initial, false)
}

// The rows 16, 17 and 19.
#[tactic(auto, unfolding(merge_state::specs::Loading::later_load, merge_state::specs::Table::first_fitting, crate::specs::Sets::bad_index))]
fn later_row(places: Places, loading: &Loading) -> Result<(), Refusal>
    requires { (length loading.now.chunks.now ≤ 1024) × (length loading.now.sets.now ≡ length loading.now.chunks.now * width places.sizes.bits) }
    ensures { row_of result ≡ first_fitting (later_load places.sizes (lent_by loading.now)) }
{
    let sizes = places.sizes;
    if has_bad_index(places, loading) {
        return Err(Refusal::MergeIndex);
    }
    if any_twice(loading.sets, set_width(sizes.bits), loading.chunks.len()) {
        return Err(Refusal::SetNamedTwice);
    }
    if sizes.entries < loading.modules.len() {
        return Err(Refusal::NoRoomForEntry);
    }
    Ok(())
}

// The row of `new`.
// stays: sizes beside the area: neither is known to be within the limits, so no Area can be made of them.
#[tactic(auto, unfolding(crate::specs::Loading::load_refusal, merge_state::specs::Loading::over_load, merge_state::specs::Loading::bad_load, merge_state::specs::Table::first_fitting, merge_area::specs::Consistent::over))]
pub fn load_row(sizes: Sizes, loading: &Loading, area: &[u32]) -> Result<(), Refusal>
    ensures { row_of result ≡ load_refusal sizes (lent_by loading.now) area.now }
{
    if over_limits(sizes) || sizes.chunks < loading.initial || sizes.chunks < loading.chunks.len() {
        return Err(Refusal::MergeOverLimits);
    }
    let places = Places { sizes };
    if are_bad_lists(places, loading) || too_short(places, area) {
        return Err(Refusal::MergeLists);
    }
    later_row(places, loading)
}
