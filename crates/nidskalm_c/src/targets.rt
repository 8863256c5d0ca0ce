// The choice of a merge target.
// stays: the C interface: its names, its numbers and its lists, one by one. The bundle and the candidate are made of them here.
ghost use Rattle.std.specs.Prelude.{◌≡◌, [], ◌∷◌};
ghost use Rattle.entry_set.specs.Sets.{value};
ghost use Rattle.merge_choice.specs.Find.{find, find_by};
ghost use Rattle.merge_choice.specs.Chosen.{lent};
ghost use Rattle.merge_target.specs.Lent.{lent_by};
ghost use Rattle.merge_target.specs.declared.Candidate.{Candidate};
ghost use Rattle.nidskalm_replies.specs.Replies.{merge_reply};

use entry_set::EntrySet;
use merge_target::{Bundle, Candidate, Lists};
use nidskalm_replies::Reply;

// What the choice is lent of the chunks and the modules, as one.
fn bundle<'b>(
    k: u64,
    m: u64,
    kinds: &'b [u32],
    entries: &'b [u32],
    mstarts: &'b [u32],
    modules: &'b [u32],
    istarts: &'b [u32],
    importers: &'b [u32],
    dstarts: &'b [u32],
    dynamics: &'b [u32],
    rstarts: &'b [u32],
    reached: &'b [u32],
    effects: &'b [u32],
    exports: &'b [u32],
) -> Bundle<'b>
    ensures chunks { result.chunks ≡ k }
    ensures modules { result.modules ≡ m }
    ensures kinds { result.kinds.now ≡ kinds.now }
    ensures lists { (candidate : Candidate) → lent_by result candidate ≡ lent entries.now mstarts.now modules.now istarts.now importers.now dstarts.now dynamics.now rstarts.now reached.now effects.now exports.now candidate.modules.now }
{
    Bundle {
        chunks: k as usize,
        modules: m as usize,
        kinds,
        entries,
        effects,
        contents: Lists {
            starts: mstarts,
            items: modules,
        },
        reached: Lists {
            starts: rstarts,
            items: reached,
        },
        importers: Lists {
            starts: istarts,
            items: importers,
        },
        dynamic_importers: Lists {
            starts: dstarts,
            items: dynamics,
        },
        exports,
    }
}

// The chunk that a candidate may be merged into, or 4,294,967,295.
#[unsafe(no_mangle)]
pub extern "C" fn nidskalm_chunk_optimization_graph_merge_target(
    k: u64,
    m: u64,
    kinds: &[u32],
    entries: &[u32],
    mstarts: &[u32],
    modules: &[u32],
    istarts: &[u32],
    importers: &[u32],
    dstarts: &[u32],
    dynamics: &[u32],
    rstarts: &[u32],
    reached: &[u32],
    effects: &[u32],
    exports: &[u32],
    candidate: &[u32],
    set0: u64,
    set1: u64,
    set2: u64,
    set3: u64,
) -> Reply
    ensures { result ≡ merge_reply (find k m kinds.now (value (set0 ∷ set1 ∷ set2 ∷ set3 ∷ [])) (lent entries.now mstarts.now modules.now istarts.now importers.now dstarts.now dynamics.now rstarts.now reached.now effects.now exports.now candidate.now)) }
{
    let bundle = bundle(
        k, m, kinds, entries, mstarts, modules, istarts, importers, dstarts, dynamics, rstarts,
        reached, effects, exports,
    );
    let candidate = Candidate {
        set: EntrySet(set0, set1, set2, set3),
        modules: candidate,
    };
    nidskalm::targets::nidskalm_chunk_optimization_graph_merge_target(&bundle, &candidate)
}

// The same by a bank's own classes of the entry kinds.
#[unsafe(no_mangle)]
pub extern "C" fn nidskalm_chunk_optimization_graph_merge_target_by_classes(
    k: u64,
    m: u64,
    kinds: &[u32],
    entries: &[u32],
    mstarts: &[u32],
    modules: &[u32],
    istarts: &[u32],
    importers: &[u32],
    dstarts: &[u32],
    dynamics: &[u32],
    rstarts: &[u32],
    reached: &[u32],
    effects: &[u32],
    exports: &[u32],
    candidate: &[u32],
    set0: u64,
    set1: u64,
    set2: u64,
    set3: u64,
    classes: &[u32],
) -> Reply
    ensures { result ≡ merge_reply (find_by classes.now k m kinds.now (value (set0 ∷ set1 ∷ set2 ∷ set3 ∷ [])) (lent entries.now mstarts.now modules.now istarts.now importers.now dstarts.now dynamics.now rstarts.now reached.now effects.now exports.now candidate.now)) }
{
    let bundle = bundle(
        k, m, kinds, entries, mstarts, modules, istarts, importers, dstarts, dynamics, rstarts,
        reached, effects, exports,
    );
    let candidate = Candidate {
        set: EntrySet(set0, set1, set2, set3),
        modules: candidate,
    };
    nidskalm::targets::nidskalm_chunk_optimization_graph_merge_target_by_classes(
        &bundle, &candidate, classes,
    )
}
