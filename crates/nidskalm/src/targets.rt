// The choice of a merge target.
ghost use Rattle.std.specs.Prelude.{◌≡◌};
ghost use Rattle.entry_set.specs.Sets.{number};
ghost use Rattle.merge_choice.specs.Find.{find, find_by};
ghost use Rattle.merge_target.specs.Lent.{lent_by};
ghost use Rattle.nidskalm_replies.specs.Replies.{merge_reply};

use merge_target::{Bundle, Candidate};
use nidskalm_replies::Reply;

// The chunk that a candidate may be merged into, or 4,294,967,295.
pub fn nidskalm_chunk_optimization_graph_merge_target(
    bundle: &Bundle,
    candidate: &Candidate,
) -> Reply
    ensures { result ≡ merge_reply (find bundle.now.chunks bundle.now.modules bundle.now.kinds.now (number candidate.now.set) (lent_by bundle.now candidate.now)) }
{
    Reply::from(merge_target::merge_target(bundle, candidate))
}

// The same by a bank's own classes of the entry kinds.
pub fn nidskalm_chunk_optimization_graph_merge_target_by_classes(
    bundle: &Bundle,
    candidate: &Candidate,
    classes: &[u32],
) -> Reply
    ensures { result ≡ merge_reply (find_by classes.now bundle.now.chunks bundle.now.modules bundle.now.kinds.now (number candidate.now.set) (lent_by bundle.now candidate.now)) }
{
    Reply::from(merge_target::merge_target_by_classes(bundle, candidate, classes))
}
