// The row that refuses a call: the lengths, starts, kinds and indices of the lent lists.
ghost use Rattle.std.specs.Prelude.{◌≡◌, not, ◌&&◌, eqb, leb, length};
ghost use Rattle.std.specs.List.{list_any, zip};
ghost use Rattle.merge_choice.specs.Find.{bad_lists, bad_lengths, bad_spans, bad_numbers, row23};
ghost use Rattle.merge_target.specs.Lent.{lists_of, lent_by};

use crate::{Bundle, Candidate, Lists};
use merge_rows::checks::{are_bad_starts, has_misfit};

// Too many chunks or modules, or a list of the wrong length.
#[tactic(auto, unfolding(merge_choice::specs::Find::bad_lengths))]
fn has_bad_lengths(bundle: &Bundle) -> bool
    ensures { result ≡ bad_lengths bundle.now.chunks bundle.now.modules bundle.now.kinds.now bundle.now.entries.now bundle.now.effects.now bundle.now.exports.now }
{
    1024 < bundle.chunks
        || 4096 < bundle.modules
        || bundle.kinds.len() != bundle.chunks
        || bundle.entries.len() != bundle.chunks
        || bundle.effects.len() != bundle.chunks
        || bundle.exports.len() != bundle.modules
}

// n lists of numbers below top have faulty starts or a number that isn't.
#[tactic(auto, unfolding(merge_choice::specs::Find::bad_lists))]
fn are_bad_lists(n: usize, top: usize, lists: &Lists) -> bool
    ensures { result ≡ bad_lists n top (lists_of lists.now) }
{
    are_bad_starts(n, lists.starts, lists.items.len()) || has_misfit(lists.items, top, false)
}

// One of the four lists of lists is such.
#[tactic(auto, unfolding(merge_choice::specs::Find::bad_spans))]
fn has_bad_spans(bundle: &Bundle) -> bool
    ensures { result ≡ bad_spans bundle.now.chunks bundle.now.modules (lists_of bundle.now.contents) (lists_of bundle.now.importers) (lists_of bundle.now.dynamic_importers) (lists_of bundle.now.reached) }
{
    are_bad_lists(bundle.chunks, bundle.modules, &bundle.contents)
        || are_bad_lists(bundle.modules, bundle.modules, &bundle.importers)
        || are_bad_lists(bundle.modules, bundle.modules, &bundle.dynamic_importers)
        || are_bad_lists(bundle.chunks, bundle.chunks, &bundle.reached)
}

// A chunk's entry module isn't one of so many modules; a common chunk's isn't read.
// stays: a kind is a number in a list that C lends, 8 for a common chunk.
fn has_bad_entry(kinds: &[u32], entries: &[u32], modules: usize) -> bool
    ensures { result ≡ list_any (λ p. not (eqb p.0 8) && leb modules p.1) (zip kinds.now entries.now) }
{
    kinds
        .iter()
        .zip(entries)
        .any(|(&kind, &entry)| kind != 8 && modules <= entry as usize)
}

// A kind above 8, or a module out of range.
#[tactic(auto, unfolding(merge_choice::specs::Find::bad_numbers))]
fn has_bad_numbers(bundle: &Bundle, candidate: &Candidate) -> bool
    requires { length bundle.now.entries.now ≡ length bundle.now.kinds.now }
    ensures { result ≡ bad_numbers bundle.now.modules bundle.now.kinds.now bundle.now.entries.now candidate.now.modules.now }
{
    has_misfit(bundle.kinds, 9, false)
        || has_misfit(candidate.modules, bundle.modules, false)
        || has_bad_entry(bundle.kinds, bundle.entries, bundle.modules)
}

// Row 23 fits.
#[tactic(auto, using(merge_choice::specs::Rows::equal_lengths), unfolding(merge_choice::specs::Find::row23))]
#[inline(never)]
pub(crate) fn is_refused(bundle: &Bundle, candidate: &Candidate) -> bool
    ensures { result ≡ row23 bundle.now.chunks bundle.now.modules bundle.now.kinds.now (lent_by bundle.now candidate.now) }
{
    has_bad_lengths(bundle) || has_bad_spans(bundle) || has_bad_numbers(bundle, candidate)
}
