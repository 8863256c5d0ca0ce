// `new`: what a loading is lent, the row that refuses one, and what one writes.
#![tactic(auto)]

pub mod sets; // sets.rt: tests of the lent sets
pub mod row; // row.rt: the row that refuses a loading
pub mod bare; // bare.rt: the area before the list entries
pub mod entries; // entries.rt: the list entries, and the whole

ghost use Rattle.std.specs.Prelude.{◌≡◌};
ghost use Rattle.merge_loading.specs.Listing.{CanPart, modules_of};

// How many initial chunks there are; each one's modules, modules[starts[x]..starts[x + 1]] those of chunk x; pairs of a set and a chunk; which modules have
// side effects, and whether merged chunks stand for their target.
// stays: Clone and Copy alone, as nobody compares or prints lent lists; the flag is a fact of its own, beside no value.
#[derive(Clone, Copy)]
pub struct Loading<'l> {
    pub initial: usize,
    pub starts: &'l [u32],
    pub modules: &'l [u32],
    pub sets: &'l [u64],
    pub chunks: &'l [u32],
    pub effects: &'l [u32],
    pub follows_merges: bool,
}

impl<'l> Loading<'l> {
    // The modules of chunk x.
    pub fn modules_of(&self, x: usize) -> &'l [u32]
        requires { CanPart self.now.starts.now self.now.modules.now x }
        ensures { result.now ≡ modules_of self.now.starts.now self.now.modules.now x }
    {
        let from = self.starts[x] as usize;
        let to = self.starts[x + 1] as usize;
        &self.modules[from..to]
    }
}
