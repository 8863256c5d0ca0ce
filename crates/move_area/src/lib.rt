// The area of a move graph, as those read it to whom it is lent.
#![tactic(auto)]

ghost use Rattle.std.specs.Prelude.{◌≡◌, ◌+◌, ◌*◌, ◌≤◌, ◌<◌, length, get_or, take, drop};
ghost use Rattle.move_area.specs.Bodies.{lane_at, atom_at};

// Numbers of the header: 1 where the graph has no cycle, how many sets have an atom, and how many distinct edges there are.
pub const ACYCLIC: usize = 2;

pub const OCCUPIED: usize = 3;

pub const DISTINCT: usize = 4;

// N, which is also the lanes' distance, and the area's numbers.
// stays: other crates write a place out, as n * n + 24 + 8 * n, where they write the area, and where laws speak of the list's numbers: what a method below answers
// equals one only by its clause, so that each such law would take a premise more (tried in move_try and move_consistency): no plainer. In contracts the definitions
// `lane_at` and `atom_at` name the places.
// stays: Clone and Copy alone, as it lends numbers: nobody compares or prints an area.
#[derive(Clone, Copy)]
pub struct Area<'a> {
    pub n: usize,
    pub numbers: &'a [u32],
}

impl<'a> Area<'a> {
    // How many sets are registered: the header's first number.
    pub fn registered(&self) -> usize
        requires { self.now.n * self.now.n < length self.now.numbers.now }
        ensures { result ≡ get_or self.now.numbers.now (self.now.n * self.now.n) 0 }
    {
        self.numbers[self.n * self.n] as usize
    }

    // Number k of the header.
    pub fn header(&self, k: usize) -> u32
        requires { self.now.n * self.now.n + k < length self.now.numbers.now }
        ensures { result ≡ get_or self.now.numbers.now (self.now.n * self.now.n + k) 0 }
    {
        self.numbers[self.n * self.n + k]
    }

    // The multiplicity of the edge from node x to node y, 0 where there is none.
    pub fn multiplicity(&self, x: usize, y: usize) -> u32
        requires { x * self.now.n + y < length self.now.numbers.now }
        ensures { result ≡ get_or self.now.numbers.now (x * self.now.n + y) 0 }
    {
        self.numbers[x * self.n + y]
    }

    // The first `count` numbers of the nodes' lane j.
    pub fn lane(&self, j: usize, count: usize) -> &'a [u32]
        requires { lane_at self.now.n j + count ≤ length self.now.numbers.now }
        ensures { result.now ≡ take count (drop (lane_at self.now.n j) self.now.numbers.now) }
    {
        let from = self.n * self.n + 24 + j * self.n;
        &self.numbers[from..from + count]
    }

    // The nodes of the first `count` atoms.
    pub fn nodes(&self, count: usize) -> &'a [u32]
        requires { atom_at self.now.n + count ≤ length self.now.numbers.now }
        ensures { result.now ≡ take count (drop (atom_at self.now.n) self.now.numbers.now) }
    {
        let from = self.n * self.n + 24 + 24 * self.n;
        &self.numbers[from..from + count]
    }

    // Atom i's node.
    pub fn node_of(&self, i: usize) -> usize
        requires { atom_at self.now.n + i < length self.now.numbers.now }
        ensures { result ≡ get_or self.now.numbers.now (atom_at self.now.n + i) 0 }
    {
        self.numbers[self.n * self.n + 24 + 24 * self.n + i] as usize
    }
}
