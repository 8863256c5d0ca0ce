// Numbers marked in a table. 0 is no mark.
ghost use Rattle.std.specs.Prelude.{◌≡◌, ◌<◌, length, All};
ghost use Rattle.merge_choice.specs.Marks.{Marked, all, empty, dynamic};
ghost use Rattle.merge_choice.specs.Named.{reads};
ghost use Rattle.merge_target.specs.Roles.{numbers};

use crate::checked::Checked;
use crate::roles::is_dynamic;

// The mark at each number of a list.
pub(crate) fn mark_list(list: &[u32], mark: u32, marks: &mut [u32])
    requires { All (λ y. y < length marks.old) list.now }
    ensures { Marked all (reads list.now) (length list.now) mark marks.old marks.new }
{
    for &y in list {
        marks[y as usize] = mark;
    }
}

impl Checked<'_> {
    // 1 at each of the candidate's modules that nobody imports dynamically.
    pub(crate) fn mark_free(&self, marks: &mut [u32])
        requires { length marks.old ≡ 4096 }
        ensures { Marked (empty self.now.candidate.now.modules.now self.now.bundle.now.dynamic_importers.starts.now) (reads self.now.candidate.now.modules.now) (length self.now.candidate.now.modules.now) 1 marks.old marks.new }
    {
        for &m in self.candidate.modules {
            if self.bundle.dynamic_importers.of(m as usize).is_empty() {
                marks[m as usize] = 1;
            }
        }
    }

    // 1 at the entry module of each dynamic entry that is named.
    pub(crate) fn mark_entries(&self, marks: &mut [u32])
        requires { length marks.old ≡ 4096 }
        ensures { Marked (dynamic (numbers self.now.roles.now)) (reads self.now.bundle.now.entries.now) (length self.now.roles.now) 1 marks.old marks.new }
    {
        for d in 0..self.roles.len() {
            if is_dynamic(self.roles, d) {
                marks[self.bundle.entries[d] as usize] = 1;
            }
        }
    }
}
