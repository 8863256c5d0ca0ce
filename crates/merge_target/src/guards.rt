// What bars a target: entries that it doesn't reach, side effects that would leak, importers elsewhere, exports.
ghost use Rattle.std.specs.Prelude.{◌≡◌, ◌<◌, not, ◌&&◌, eqb, length, get_or, All};
ghost use Rattle.std.specs.List.{list_any, zip, range_with_len};
ghost use Rattle.merge_choice.specs.Choice.{unreached, leaks, strayed, polluted};
ghost use Rattle.merge_choice.specs.Named.{reads};
ghost use Rattle.merge_choice.specs.Spans.{Span};
ghost use Rattle.merge_target.specs.Lent.{lists_of, list_of};
ghost use Rattle.merge_target.specs.Roles.{role_number, numbers};

use crate::Lists;
use crate::checked::Checked;
use crate::marks::mark_list;
use crate::roles::{Role, is_named};

// A dynamic entry among the roles isn't marked.
fn some_unmarked_entry(roles: &[Role], marks: &[u32]) -> bool
    ensures { result ≡ list_any (λ p. eqb (role_number p.0) 1 && eqb p.1 0) (zip roles.now marks.now) }
{
    roles
        .iter()
        .zip(marks)
        .any(|(&role, &mark)| role == Role::DynamicEntry && mark == 0)
}

// A chunk of the list is a dynamic entry that is named.
fn some_named(list: &[u32], roles: &[Role; 1024]) -> bool
    requires { All (λ d. d < 1024) list.now }
    ensures { result ≡ list_any (λ d. eqb (get_or (numbers roles.now) d 0) 1) list.now }
{
    list.iter().any(|&d| is_named(roles, d as usize))
}

// A number of the list isn't marked.
fn some_unmarked(list: &[u32], marks: &[u32]) -> bool
    requires { All (λ y. y < length marks.now) list.now }
    ensures { result ≡ list_any (λ y. eqb (get_or marks.now y 0) 0) list.now }
{
    list.iter().any(|&y| marks[y as usize] == 0)
}

// One of the modules has a number in its list that isn't marked.
fn some_strays(modules: &[u32], lists: &Lists, marks: &[u32]) -> bool
    requires spans { All (λ m. Span lists.now.starts.now lists.now.items.now m) modules.now }
    requires room { All (λ m. All (λ y. y < length marks.now) (list_of (lists_of lists.now) m)) modules.now }
    ensures { result ≡ list_any (λ m. list_any (λ y. eqb (get_or marks.now y 0) 0) (list_of (lists_of lists.now) m)) modules.now }
{
    modules
        .iter()
        .any(|&m| some_unmarked(lists.of(m as usize), marks))
}

// One of the modules isn't e, has observable exports, and is marked.
fn some_polluting(modules: &[u32], e: u32, exports: &[u32], marks: &[u32]) -> bool
    requires flagged { All (λ m. m < length exports.now) modules.now }
    requires marked { All (λ m. m < length marks.now) modules.now }
    ensures { result ≡ list_any (λ m. not (eqb m e) && (not (eqb (get_or exports.now m 0) 0) && not (eqb (get_or marks.now m 0) 0))) modules.now }
{
    modules.iter().any(|&m| m != e && exports[m as usize] != 0 && marks[m as usize] != 0)
}

// stays: the arrays of marks below are of fixed lengths: memory is fixed, nothing is on the heap.
// stays: that t is one of the chunks is asked of each guard's own argument; a type for it would be made for the one call of each alone: no plainer.
impl Checked<'_> {
    // A dynamic entry that is named isn't reached by t.
    pub(crate) fn is_unreached(&self, t: usize) -> bool
        requires { t < self.now.bundle.now.chunks }
        ensures { result ≡ unreached (reads (numbers self.now.roles.now)) (length self.now.roles.now) (lists_of self.now.bundle.now.reached) t }
    {
        let mut marks = [0u32; 1024];
        mark_list(self.bundle.reached.of(t), 1, &mut marks);
        some_unmarked_entry(self.roles, &marks)
    }

    // One of the chunks other than t reaches such an entry.
    fn some_other_reaches(&self, t: usize) -> bool
        ensures { result ≡ list_any (λ o. not (eqb o t) && list_any (λ d. eqb (get_or (numbers self.now.roles.now) d 0) 1) (list_of (lists_of self.now.bundle.now.reached) o)) (range_with_len 0 self.now.bundle.now.chunks) }
    {
        (0..self.bundle.chunks).any(|o| o != t && some_named(self.bundle.reached.of(o), self.table))
    }

    // The side effects of t would leak.
    pub(crate) fn leaks(&self, t: usize) -> bool
        requires { t < self.now.bundle.now.chunks }
        ensures { result ≡ leaks (reads (numbers self.now.roles.now)) (length self.now.roles.now) (lists_of self.now.bundle.now.reached) self.now.bundle.now.effects.now self.now.bundle.now.chunks t }
    {
        self.bundle.effects[t] != 0 && self.some_other_reaches(t)
    }

    // A dynamic importer of one of the candidate's modules is neither in t nor comes with the candidate.
    pub(crate) fn strays(&self, t: usize) -> bool
        requires { t < self.now.bundle.now.chunks }
        ensures { result ≡ strayed (lists_of self.now.bundle.now.contents) (lists_of self.now.bundle.now.dynamic_importers) self.now.candidate.now.modules.now t }
    {
        let mut marks = [0u32; 4096];
        mark_list(self.bundle.contents.of(t), 1, &mut marks);
        self.mark_free(&mut marks);
        some_strays(
            self.candidate.modules,
            &self.bundle.dynamic_importers,
            &marks,
        )
    }

    // The candidate would bring another dynamic entry's exports into t.
    pub(crate) fn pollutes(&self, t: usize) -> bool
        requires { t < self.now.bundle.now.chunks }
        ensures { result ≡ polluted (reads (numbers self.now.roles.now)) (length self.now.roles.now) self.now.bundle.now.entries.now self.now.bundle.now.exports.now self.now.candidate.now.modules.now t }
    {
        let mut marks = [0u32; 4096];
        self.mark_entries(&mut marks);
        let bundle = self.bundle;
        some_polluting(
            self.candidate.modules,
            bundle.entries[t],
            bundle.exports,
            &marks,
        )
    }
}
