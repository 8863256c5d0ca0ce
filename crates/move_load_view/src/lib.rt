// A move graph's load as a view: how many atoms, dependency entries and entry bits it has, and the three lists that are lent. Two thin readers.
#![tactic(auto)]

ghost use Rattle.std.specs.Prelude.{◌≡◌, ◌<◌, length};
ghost use Rattle.move_ledger.specs.Graph.{at};
ghost use Rattle.move_load_view.specs.View.{CanPart, dependencies_of};

// A, D and E, and the lists.
// stays: Clone and Copy alone, as it lends lists: nobody compares or prints a load.
// stays: A, D and E beside the lists: C lends them, and row 2 of the table compares them with the lists' lengths.
#[derive(Clone, Copy)]
pub struct Load<'s, 'd, 'h> {
    pub atoms: usize,
    pub entries: usize,
    pub bits: usize,
    pub starts: &'s [u32],
    pub dependencies: &'d [u32],
    pub hosts: &'h [u32],
}

impl<'s, 'd, 'h> Load<'s, 'd, 'h> {
    // An atom's dependencies: from its start to the next one.
    pub fn dependencies_of(&self, atom: usize) -> &'d [u32]
        requires { CanPart self.now.starts.now self.now.dependencies.now atom }
        ensures { result.now ≡ dependencies_of self.now.starts.now self.now.dependencies.now atom }
    {
        let from = self.starts[atom] as usize;
        let to = self.starts[atom + 1] as usize;
        &self.dependencies[from..to]
    }

    // An entry bit's host, as it is lent: 4,294,967,295 where it has none.
    // stays: a number of the list that C lends, which is compared with numbers (crates/move_slots).
    pub fn host_of(&self, bit: usize) -> u32
        requires { bit < length self.now.hosts.now }
        ensures { result ≡ at self.now.hosts.now bit }
    {
        self.hosts[bit]
    }
}
