// How many nodes an atom may go to.
ghost use Rattle.std.specs.Prelude.{◌≡◌, ◌≤◌, ◌<◌, length};
ghost use Rattle.graphs.specs.Count.{count};
ghost use Rattle.move_freedom.specs.Tally.{both, admits, open_count, has_atom};

// The registered sets, and the node behind them, at which the atom is.
pub const NODES: usize = 1025;

// What the walks of an atom tell of each node: whether it comes a step after one that the atom reaches, whether a step leads from it to one that reaches
// the atom, whether a step leads to it from the atom, and, unless it is 0, that it reaches the atom.
// stays: `back` are the marks that a walk leaves, which are numbers, and each of the other three is written by one loop of its own: a list of structs would be
// no plainer.
#[derive(Drop)]
pub struct Flags {
    pub ahead: [bool; NODES],
    pub behind: [bool; NODES],
    pub out: [bool; NODES],
    pub back: [u32; NODES],
}

impl Flags {
    // Whether a step leads from the atom to node x, and x reaches the atom.
    fn meets(&self, x: usize) -> bool
        requires { x < 1025 }
        ensures { result ≡ both self.now x }
    {
        self.out[x] && self.back[x] != 0
    }

    // How many of n nodes meet.
    #[tactic(auto, using(crate::proofs::Counting::counting))]
    fn meeting(&self, n: usize) -> u32
        requires { n ≤ 1025 }
        ensures { result ≡ count (both self.now) n }
    {
        let mut all = 0;
        for x in 0..n {
            all += u32::from(self.meets(x));
        }
        all
    }

    // Whether the atom in node `own` may go to node x, with `atoms` atoms: another node with an atom, with neither flag, and the only one of k that meet
    // if there are such.
    fn admits(&self, atoms: u32, own: usize, k: u32, x: usize) -> bool
        requires { x < 1025 }
        ensures { result ≡ admits self.now atoms own k x }
    {
        atoms != 0 && x != own && !self.ahead[x] && !self.behind[x] && k == u32::from(self.meets(x))
    }

    // How many nodes the atom in node `own` may go to, of those with the atom counts.
    #[tactic(auto, using(crate::proofs::Counting::counting), unfolding(crate::specs::Tally::open_count))]
    pub fn open_nodes(&self, counts: &[u32], own: usize) -> u32
        requires { length counts.now ≤ 1024 }
        ensures { result ≡ open_count self.now counts.now own }
    {
        let k = self.meeting(counts.len() + 1);
        let mut all = 0;
        for (x, &atoms) in counts.iter().enumerate() {
            all += u32::from(self.admits(atoms, own, k, x));
        }
        all
    }
}

// How many nodes have an atom.
pub fn occupied_nodes(counts: &[u32]) -> usize
    ensures { result ≡ count (has_atom counts.now) (length counts.now) }
{
    counts.iter().filter(|&&atoms| atoms != 0).count()
}
