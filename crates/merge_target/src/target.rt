// The first entry whose module all others of its role import.
ghost use Rattle.std.specs.Prelude.{◌≡◌, ℕ, ◌<◌, ◌≤◌, not, ◌&&◌, eqb, length, get_or, IfSome};
ghost use Rattle.std.specs.List.{list_any, range_with_len};
ghost use Rattle.merge_choice.specs.Choice.{first_target};
ghost use Rattle.merge_choice.specs.Named.{reads};
ghost use Rattle.merge_choice.specs.Search.{Searching, Won};
ghost use Rattle.merge_state.specs.Named.{number_of};
ghost use Rattle.merge_target.specs.Lent.{lists_of};
ghost use Rattle.merge_target.specs.Roles.{role_number, numbers};
ghost use Rattle.merge_target.specs.Sound.{IsEntry};

use crate::checked::Checked;
use crate::marks::mark_list;
use crate::roles::Role;
use merge_state::ChunkIdx;

// Some chunk has role v, and its entry module neither is e nor has the mark.
fn some_missing(roles: &[Role], v: Role, entries: &[u32], e: u32, marks: &[u32], mark: u32) -> bool
    requires listed { length roles.now ≤ length entries.now }
    requires below { (o : ℕ) → o < length roles.now → get_or roles.now o Role.Nothing ≡ v → get_or entries.now o 0 < length marks.now }
    ensures { result ≡ list_any (λ o. eqb (role_number (get_or roles.now o Role.Nothing)) (role_number v) && (not (eqb (get_or entries.now o 0) e) && not (eqb (get_or marks.now (get_or entries.now o 0) 0) mark))) (range_with_len 0 (length roles.now)) }
{
    (0..roles.len()).any(|o| {
        roles[o] == v && entries[o] != e && marks[entries[o] as usize] != mark
    })
}

impl Checked<'_> {
    // All chunks of role v import t, which has it; the marks are those of chunks up to t, each by its number.
    fn wins(&self, v: Role, t: usize, marks: &mut [u32]) -> bool
        requires entry { IsEntry v }
        requires chunk { t < length self.now.roles.now }
        requires searching { Searching (length self.now.roles.now) (numbers self.now.roles.now) (role_number v) self.now.bundle.now.entries.now self.now.bundle.now.importers.starts.now self.now.bundle.now.importers.items.now marks.old t }
        ensures { Won (length self.now.roles.now) (numbers self.now.roles.now) (role_number v) self.now.bundle.now.entries.now self.now.bundle.now.importers.starts.now self.now.bundle.now.importers.items.now marks.old t marks.new result }
    {
        if self.roles[t] != v {
            return false;
        }
        let e = self.bundle.entries[t];
        let mark = t as u32 + 1;
        mark_list(self.bundle.importers.of(e as usize), mark, marks);
        !some_missing(self.roles, v, self.bundle.entries, e, marks, mark)
    }

    // The first chunk of role v that wins.
    pub(crate) fn first_target(&self, v: Role) -> Option<ChunkIdx>
        requires { IsEntry v }
        ensures value { number_of result ≡ first_target (reads (numbers self.now.roles.now)) (length self.now.roles.now) self.now.bundle.now.entries.now (lists_of self.now.bundle.now.importers) (role_number v) }
        ensures below { IfSome result (λ t. t.0 < length self.now.roles.now) }
    {
        let mut marks = [0u32; 4096]; // stays: memory is fixed, nothing is on the heap
        for t in 0..self.roles.len() {
            if self.wins(v, t, &mut marks) {
                return Some(ChunkIdx(t as u32));
            }
        }
        None
    }
}
