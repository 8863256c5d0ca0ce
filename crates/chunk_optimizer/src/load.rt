// The merge graph's loading.
ghost use Rattle.merge_loading.specs.Loading.{lent_by, Loaded};
ghost use Rattle.chunk_optimizer.specs.Answers.{done_told};

use merge_loading::Loading;
use merge_state::Sizes;
use refusals::Refusal;

// Loads each initial chunk's modules and the pairs of a set and its chunk; a refused loading leaves the area as it was. Let it follow merges, so that
// merged chunks stand for their target, where the script writer resolves an import of a merged chunk to its target.
pub fn new(sizes: Sizes, area: &mut [u32], loading: &Loading) -> Result<(), Refusal>
    ensures { Loaded sizes (lent_by loading.now) area.old (done_told result) area.new }
{
    merge_loading::row::load_row(sizes, loading, area)?;
    merge_loading::entries::load(sizes, area, loading);
    Ok(())
}
