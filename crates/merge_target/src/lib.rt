// The choice of the chunk that a candidate may be merged into, over lent lists.
#![tactic(auto)]

mod checked; // checked.rt: a call that no row refuses
mod classes; // classes.rt: the row that refuses a bank's own classes
mod guards; // guards.rt: what bars a target
mod marks; // marks.rt: numbers marked in a table
mod roles; // roles.rt: what the bits of a set name
mod row; // row.rt: the row that refuses a call
mod target; // target.rt: the first entry that all others import

ghost use Rattle.std.specs.Prelude.{◌≡◌, ◌<◌, false, IfSome};
ghost use Rattle.entry_set.specs.Sets.{number};
ghost use Rattle.merge_choice.specs.Choice.{user_target, dynamic_target, chosen, choice};
ghost use Rattle.merge_choice.specs.Find.{row23, find, find_by};
ghost use Rattle.merge_choice.specs.Named.{reads};
ghost use Rattle.merge_choice.specs.Spans.{Span};
ghost use Rattle.merge_state.specs.Named.{number_of};
ghost use Rattle.merge_target.specs.Answers.{target_told};
ghost use Rattle.merge_target.specs.Lent.{lists_of, list_of, lent_by};
ghost use Rattle.merge_target.specs.Roles.{numbers};

use checked::Checked;
use entry_set::EntrySet;
use merge_state::ChunkIdx;
use refusals::Refusal;
use roles::Role;

// stays: Lists, Bundle and Candidate have Clone and Copy alone, as Checked has: they hold what is lent, and nobody compares or prints them.

// Lists of numbers in one: list x is the items from start x up to start x + 1.
#[derive(Clone, Copy)]
pub struct Lists<'l> {
    pub starts: &'l [u32],
    pub items: &'l [u32],
}

impl<'l> Lists<'l> {
    // List x.
    fn of(&self, x: usize) -> &'l [u32]
        requires { Span self.now.starts.now self.now.items.now x }
        ensures { result.now ≡ list_of (lists_of self.now) x }
    {
        let from = self.starts[x] as usize;
        let to = self.starts[x + 1] as usize;
        &self.items[from..to]
    }
}

// What the choice is lent of the chunks and the modules.
#[derive(Clone, Copy)]
pub struct Bundle<'b> {
    // How many there are.
    // stays: each beside the lists that are as long, for C lends the counts, and row 23 compares them with the lists.
    pub chunks: usize,
    pub modules: usize,
    // Each chunk's kind, its entry module, whether it has side effects, its modules, and the dynamic entries that it reaches.
    pub kinds: &'b [u32],
    pub entries: &'b [u32],
    pub effects: &'b [u32],
    pub contents: Lists<'b>,
    pub reached: Lists<'b>,
    // Who imports each module statically, who dynamically, and whether it has observable exports.
    pub importers: Lists<'b>,
    pub dynamic_importers: Lists<'b>,
    pub exports: &'b [u32],
}

// What may be merged into a chunk: a set of entry bits, and its modules.
#[derive(Clone, Copy)]
pub struct Candidate<'c> {
    pub set: EntrySet,
    pub modules: &'c [u32],
}

// The class of each entry kind: 1 for a user entry, 0 for a dynamic one.
// stays: numbers, as C lends a bank's own.
const BUILT_IN: [u32; 8] = [0, 1, 0, 1, 1, 1, 1, 1];

impl Checked<'_> {
    // The target where a user entry is named.
    fn user_target(&self) -> Option<ChunkIdx>
        ensures value { number_of result ≡ user_target (reads (numbers self.now.roles.now)) self.now.bundle.now.chunks self.now.bundle.now.entries.now (lists_of self.now.bundle.now.contents) (lists_of self.now.bundle.now.importers) (lists_of self.now.bundle.now.dynamic_importers) (lists_of self.now.bundle.now.reached) self.now.bundle.now.effects.now self.now.candidate.now.modules.now }
        ensures below { IfSome result (λ t. t.0 < self.now.bundle.now.chunks) }
    {
        let t = self.first_target(Role::UserEntry)?;
        let at = t.0 as usize;
        if self.is_unreached(at) || self.leaks(at) || self.strays(at) {
            return None;
        }
        Some(t)
    }

    // The target where no user entry is named.
    fn dynamic_target(&self) -> Option<ChunkIdx>
        ensures value { number_of result ≡ dynamic_target (reads (numbers self.now.roles.now)) self.now.bundle.now.chunks self.now.bundle.now.entries.now (lists_of self.now.bundle.now.importers) self.now.bundle.now.exports.now self.now.candidate.now.modules.now }
        ensures below { IfSome result (λ t. t.0 < self.now.bundle.now.chunks) }
    {
        let t = self.first_target(Role::DynamicEntry)?;
        if self.pollutes(t.0 as usize) {
            return None;
        }
        Some(t)
    }

    // The target by the roles of the chunks that bits can name.
    fn chosen(&self) -> Option<ChunkIdx>
        ensures value { number_of result ≡ chosen (reads (numbers self.now.roles.now)) self.now.bundle.now.chunks (lent_by self.now.bundle.now self.now.candidate.now) }
        ensures below { IfSome result (λ t. t.0 < self.now.bundle.now.chunks) }
    {
        if self.roles.contains(&Role::CommonChunk) {
            return None;
        }
        if self.roles.contains(&Role::UserEntry) {
            return self.user_target();
        }
        self.dynamic_target()
    }
}

// The target by the classes of the entry kinds. A function of its own to the compiler, as `is_refused` is: as one with that it aligned no loop of either, and a
// call's time hung on where it was linked.
#[inline(never)]
fn choose(bundle: &Bundle, candidate: &Candidate, classes: &[u32; 8]) -> Option<ChunkIdx>
    requires { row23 bundle.now.chunks bundle.now.modules bundle.now.kinds.now (lent_by bundle.now candidate.now) ≡ false }
    ensures value { number_of result ≡ choice classes.now bundle.now.kinds.now (number candidate.now.set) (lent_by bundle.now candidate.now) }
    ensures below { IfSome result (λ t. t.0 < bundle.now.chunks) }
{
    let table = roles::table(bundle.kinds, classes, candidate.set);
    let roles = &table[..roles::bits(bundle.chunks)];
    let checked = Checked {
        bundle,
        candidate,
        roles,
        table: &table,
    };
    checked.chosen()
}

// The chunk that the candidate may be merged into, if there is one.
pub fn merge_target(bundle: &Bundle, candidate: &Candidate) -> Result<Option<ChunkIdx>, Refusal>
    ensures { target_told result ≡ find bundle.now.chunks bundle.now.modules bundle.now.kinds.now (number candidate.now.set) (lent_by bundle.now candidate.now) }
{
    merge_target_by_classes(bundle, candidate, &BUILT_IN)
}

// The same by the classes of the entry kinds that are lent: eight, 0 dynamic and 1 user, odd rows 1.
pub fn merge_target_by_classes(
    bundle: &Bundle,
    candidate: &Candidate,
    classes: &[u32],
) -> Result<Option<ChunkIdx>, Refusal>
    ensures { target_told result ≡ find_by classes.now bundle.now.chunks bundle.now.modules bundle.now.kinds.now (number candidate.now.set) (lent_by bundle.now candidate.now) }
{
    if row::is_refused(bundle, candidate) {
        return Err(Refusal::ChoiceLists);
    }
    let Some(classes) = classes::checked(classes) else {
        return Err(Refusal::FaultyClasses);
    };
    Ok(choose(bundle, candidate, classes))
}
