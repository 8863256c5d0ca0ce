// The commands of the program `moves` byte by byte, and those before the load.
#![tactic(auto)]

ghost use Rattle.std.specs.Prelude.{◌≡◌, ◌+◌, ◌^◌, ◌≤◌, ◌<◌, length};
ghost use Rattle.graphs.specs.Tab.{tab};
ghost use Rattle.layout.specs.Patch.{patch};
ghost use Rattle.moves_load_commands.specs.Machine as def;
ghost use Rattle.moves_load_commands.specs.Lists.{Roomy, within, roomy};
ghost use Rattle.moves_load_commands.specs.Lent.{SameLists, shown};

// A command whose operands are being read.
#[derive(Clone, Copy, PartialEq, Eq, Debug)]
pub struct Command {
    // the byte of the input
    // stays: a rule of the project, that what is public asks no more: `read` takes any number, and an enum of the eight commands would take no other
    pub number: u32,
    // operand bytes still to come
    pub wanted: u32,
    pub x: u32,
    pub y: u32,
}

// The command that is being read, if there is one, and how much has been named.
// stays: `moving` and `stopped` are facts of their own, that tell of no value beside them: an Option or an enum would be no plainer
#[derive(Clone, Copy, PartialEq, Eq, Debug)]
pub struct Machine {
    pub moving: bool,
    pub stopped: bool,
    pub command: Option<Command>,
    pub atoms: usize,
    pub entries: usize,
}

// What the commands before the load have named: the sets of atoms, dependencies by rising atom, each with its atom in `sources`, and the hosts of bits.
// stays: memory is fixed, nothing is on the heap: the lists are arrays of the program's limits
#[derive(Drop)]
pub struct Reading {
    pub machine: Machine,
    pub sets: [u64; 48],
    pub sources: [u32; 128],
    pub dependencies: [u32; 128],
    // u32::MAX for a bit that has none
    // stays: the C interface: a load is lent to the library with this number, and the program lends this list itself
    pub hosts: [u32; 16],
}

// The same over lists that are lent, each of any length.
#[derive(Drop)]
pub struct LentReading<'l> {
    pub machine: Machine,
    pub sets: &'l mut [u64],
    pub sources: &'l mut [u32],
    pub dependencies: &'l mut [u32],
    pub hosts: &'l mut [u32],
}

// Whether a byte is a command of this phase: 10 to 13 before the load, 20 to 23 after it.
fn belongs(number: u32, moving: bool) -> bool
    ensures { result ≡ def.belongs number moving }
{
    match number {
        0x10..=0x13 => !moving,
        0x20..=0x23 => moving,
        _ => false,
    }
}

fn operand_bytes(number: u32) -> u32
    ensures { result ≡ def.operand_bytes number }
{
    match number {
        0x10 | 0x22 => 2,
        0x13 | 0x21 | 0x23 => 0,
        _ => 4,
    }
}

// Two bytes as a number, low byte first.
fn both(low: u32, high: u8) -> u32
    ensures { result ≡ def.both low high }
{
    low % 256 + 256 * u32::from(high)
}

impl Command {
    // A command by its number, none of its operands read yet.
    fn named(number: u32) -> Self
        ensures { result ≡ def.named number }
    {
        Command {
            number,
            wanted: operand_bytes(number),
            x: 0,
            y: 0,
        }
    }

    // The command with one more byte of its operands. One that is alone is y.
    #[tactic(auto, using(std::proofs::lemmas::Bool::Decides::nat_tests), unfolding(crate::specs::Machine::operand))]
    fn with_operand(self, b: u8) -> Self
        ensures { result ≡ def.operand self b }
    {
        match self.wanted {
            4 => Command {
                wanted: 3,
                x: u32::from(b),
                ..self
            },
            3 => Command {
                wanted: 2,
                x: both(self.x, b),
                ..self
            },
            2 => Command {
                wanted: 1,
                y: u32::from(b),
                ..self
            },
            _ => Command {
                wanted: 0,
                y: both(self.y, b),
                ..self
            },
        }
    }
}

impl Machine {
    // Before the first byte.
    pub fn new() -> Self
        ensures { result ≡ def.new_machine }
    {
        Machine {
            moving: false,
            stopped: false,
            command: None,
            atoms: 0,
            entries: 0,
        }
    }

    // The machine once a byte is read.
    #[tactic(auto, unfolding(crate::specs::Machine::taken))]
    pub fn taken(self, b: u8) -> Self
        ensures { result ≡ def.taken self b }
    {
        match self.command {
            Some(command) => Machine {
                command: Some(command.with_operand(b)),
                ..self
            },
            None if belongs(u32::from(b), self.moving) => Machine {
                command: Some(Command::named(u32::from(b))),
                ..self
            },
            None => Machine {
                stopped: true,
                ..self
            },
        }
    }

    // Whether no more is named than the program has room for.
    #[tactic(auto, using(std::proofs::lemmas::Bool::Decides::nat_tests))]
    pub fn is_within(self) -> bool
        ensures { result ≡ within self }
    {
        self.atoms <= 48 && self.entries <= 128
    }
}

// Where the dependencies of atom i start, of those of the sources, which rise.
fn start(sources: &[u32], i: usize) -> usize
    ensures value { result ≡ def.start sources.now (length sources.now) i }
    ensures upper_bound { result ≤ length sources.now }
{
    sources.iter().filter(|&&x| (x as usize) < i).count()
}

// v is put at place p of the first d numbers.
fn insert(l: &mut [u32], p: usize, d: usize, v: u32)
    requires { (p ≤ d) × (d < length l.old) }
    ensures { l.new ≡ def.inserted p d v l.old }
{
    l[d] = v;
    l[p..d + 1].rotate_right(1);
}

impl Reading {
    // Before the first byte.
    pub fn new() -> Self
        ensures { result ≡ def.new_reading }
    {
        Reading {
            machine: Machine::new(),
            sets: [0; 48],
            sources: [0; 128],
            dependencies: [0; 128],
            hosts: [u32::MAX; 16],
        }
    }

    // Whether no more is named than the lists have room for, whose lengths their types tell.
    pub fn fits(&self) -> bool
        ensures value { result ≡ within self.now.machine }
        ensures lists { Roomy self.now.sets self.now.sources self.now.dependencies self.now.hosts }
    {
        self.machine.is_within()
    }

    // 10, 11 or 12, over these lists.
    pub fn read(&mut self, command: Command)
        ensures { self.new ≡ def.read command self.old }
    {
        let mut lent = LentReading {
            machine: self.machine,
            sets: &mut self.sets,
            sources: &mut self.sources,
            dependencies: &mut self.dependencies,
            hosts: &mut self.hosts,
        };
        lent.read(command);
        self.machine = lent.machine;
    }
}

impl LentReading<'_> {
    // Whether the lists have room for the program's limits.
    #[tactic(auto, using(std::proofs::lemmas::Bool::Decides::nat_tests))]
    pub fn has_room(&self) -> bool
        ensures { result ≡ roomy (shown self.now) }
    {
        48 <= self.sets.len()
            && 128 <= self.sources.len()
            && 128 <= self.dependencies.len()
            && 16 <= self.hosts.len()
    }

    // 10: the next atom and its set.
    #[tactic(auto, using(std::proofs::lemmas::Bool::Decides::nat_tests), unfolding(crate::specs::Machine::add_atom))]
    fn add_atom(&mut self, command: Command)
        requires { 48 ≤ length self.old.sets.now }
        ensures after { shown self.new ≡ def.add_atom command (shown self.old) }
        ensures same { SameLists self.old self.new }
    {
        let i = self.machine.atoms;
        if 48 <= i {
            self.machine.stopped = true;
            return;
        }
        self.sets[i] = u64::from(command.y);
        self.machine.atoms = i + 1;
        self.machine.command = None;
    }

    // 11: the second atom goes behind the dependencies of the first.
    #[tactic(auto, using(std::proofs::lemmas::Bool::Decides::nat_tests), unfolding(crate::specs::Machine::depend))]
    fn depend(&mut self, command: Command)
        requires { (128 ≤ length self.old.sources.now) × (128 ≤ length self.old.dependencies.now) }
        ensures after { shown self.new ≡ def.depend command (shown self.old) }
        ensures same { SameLists self.old self.new }
    {
        let a = command.x as usize;
        let b = command.y as usize;
        let d = self.machine.entries;
        if self.machine.atoms <= a || self.machine.atoms <= b || 128 <= d {
            self.machine.stopped = true;
            return;
        }
        let sources = &mut *self.sources;
        let p = start(&sources[..d], a + 1);
        insert(sources, p, d, command.x);
        insert(self.dependencies, p, d, command.y);
        self.machine.entries = d + 1;
        self.machine.command = None;
    }

    // 12: the host of a bit.
    #[tactic(auto, using(std::proofs::lemmas::Bool::Decides::nat_tests), unfolding(crate::specs::Machine::add_host))]
    fn add_host(&mut self, command: Command)
        requires { 16 ≤ length self.old.hosts.now }
        ensures after { shown self.new ≡ def.add_host command (shown self.old) }
        ensures same { SameLists self.old self.new }
    {
        let e = command.x as usize;
        let a = command.y as usize;
        if 16 <= e || self.machine.atoms <= a || self.hosts[e] != u32::MAX {
            self.machine.stopped = true;
            return;
        }
        self.hosts[e] = command.y;
        self.machine.command = None;
    }

    // 10, 11 or 12, which `execute` of moves_commands leaves to this place; `belongs` and `operand_bytes` go by the number, too, for its phase and its operands.
    // stays: a table of functions would need an index made of the number and a proof of its bound, where the match needs neither: no plainer
    #[tactic(auto, using(std::proofs::lemmas::Bool::Decides::nat_tests), unfolding(crate::specs::Machine::read))]
    pub fn read(&mut self, command: Command)
        requires { Roomy self.old.sets.now self.old.sources.now self.old.dependencies.now self.old.hosts.now }
        ensures after { shown self.new ≡ def.read command (shown self.old) }
        ensures same { SameLists self.old self.new }
    {
        match command.number {
            0x10 => self.add_atom(command),
            0x11 => self.depend(command),
            _ => self.add_host(command),
        }
    }
}

// Where each atom's dependencies start, and the last one's end.
pub fn fill_starts(sources: &[u32], starts: &mut [u32])
    requires { length sources.now < 2 ^ 32 }
    ensures { starts.new ≡ tab (def.start sources.now (length sources.now)) (length starts.old) }
{
    for (i, place) in starts.iter_mut().enumerate() {
        *place = start(sources, i) as u32;
    }
}
