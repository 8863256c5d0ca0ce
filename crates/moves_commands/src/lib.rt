// The command interpreter of the program `moves`: bytes of commands in, bytes of replies out.
#![tactic(auto)]

mod commands;
mod edge_lines;

ghost use Rattle.std.specs.Prelude.{◌≡◌, ◌≤◌, length, replicate};
ghost use Rattle.moves_load_commands.specs.Lent.{SameLists, shown};
ghost use Rattle.moves_replies.specs.Room.{Put};
ghost use Rattle.moves_replies.specs.Wrote.{HasRoom};
ghost use Rattle.moves_commands.specs.Program as def;
ghost use Rattle.moves_commands.specs.Program.{areas, fresh};
ghost use Rattle.moves_commands.specs.Feed.{feeding, feed, finished};
ghost use Rattle.moves_commands.specs.Fits.{Ready, fits};
ghost use Rattle.moves_commands.specs.Steps.{Stepped, FedAs, FedTo, held, lent_held};

use commands::{execute, tell_refused};
use moves_load_commands::{LentReading, Machine, Reading};
use moves_replies::Replies;
use refusals::Refusal;

// Room for the longest reply, a listing of 144 edges.
const RESERVE: usize = 10240;

// What the commands have named, where each atom's dependencies start once they are loaded, and the move graph's work area.
// stays: memory is fixed, nothing is on the heap: arrays of the program's limits
#[derive(Drop)]
pub struct Interpreter {
    pub reading: Reading,
    pub starts: [u32; 49],
    pub area: [u32; 16384],
}

// How many bytes of a block were used, and how many bytes of replies were written.
#[derive(Clone, Copy, PartialEq, Eq, Debug)]
pub struct Fed {
    pub used: usize,
    pub written: usize,
}

impl Interpreter {
    // Before the first byte.
    pub fn new() -> Self
        ensures { held result ≡ fresh (replicate 16384 0) }
    {
        Interpreter {
            reading: Reading::new(),
            starts: [0; 49],
            area: [0; 16384],
        }
    }

    // Takes a block of the input, as much as there is room for the replies to; where more is named than there is room for it takes nothing.
    pub fn feed(&mut self, input: &[u8], out: &mut [u8]) -> Fed
        ensures fed_as { FedAs (feed areas (held self.old) input.now (length out.old)) self.new out.old out.new result }
        ensures used_in_bounds { result.used ≤ length input.now }
    {
        let mut lent = LentReading {
            machine: self.reading.machine,
            sets: &mut self.reading.sets,
            sources: &mut self.reading.sources,
            dependencies: &mut self.reading.dependencies,
            hosts: &mut self.reading.hosts,
        };
        let fed = feed(&mut lent, &mut self.starts, &mut self.area, input, out);
        self.reading.machine = lent.machine;
        fed
    }
}

// stays: `Ready` is asked in many contracts and is no fact of a type. A rule of the project needs that: `feed` takes lists of any length, and no byte where one is
// too short or more is named than there is room for; the type would ask the fact of each caller. A struct of a lent interpreter with the fact was tried, and the
// proof didn't close: no two parts of what lies behind a field that is a `&mut` can be lent at once, and a function of the interpreter itself asks the fact again
// stays: the reading, the starts and the area are passed one by one. A struct of the three was tried, and the proof of `feed` of an Interpreter didn't close: of
// what is lent by a field of a field nothing is known once the loan ends
// stays: `HasRoom` is asked reply by reply: room shrinks with each reply, and a type for each room would be no plainer

// A byte of the input.
#[tactic(auto, using(moves_replies::specs::Wrote::wrote_none), unfolding(crate::specs::Program::step))]
fn step(
    reading: &mut LentReading,
    starts: &mut [u32],
    area: &mut [u32],
    b: u8,
    replies: &mut Replies,
)
    requires ready { Ready (lent_held reading.old starts.old area.old) }
    requires room { HasRoom 10240 replies.old }
    ensures stepped { Stepped (def.step areas (lent_held reading.old starts.old area.old) b) (lent_held reading.new starts.new area.new) replies.old replies.new }
    ensures same { SameLists reading.old reading.new }
{
    if reading.machine.stopped {
        return;
    }
    reading.machine = reading.machine.taken(b);
    match reading.machine.command {
        Some(command) if command.wanted == 0 => execute(reading, starts, area, command, replies),
        _ => tell_refused(reading.machine, replies),
    }
}

// Whether the lists have room for the program's limits, and no more is named.
#[tactic(auto, using(std::proofs::lemmas::Bool::Decides::nat_tests))]
fn fits(reading: &LentReading, starts: &[u32]) -> bool
    ensures { result ≡ fits (shown reading.now) starts.now }
{
    reading.has_room() && 49 <= starts.len() && reading.machine.is_within()
}

// Bytes are taken while there is room for the longest reply.
fn feed_on(
    reading: &mut LentReading,
    starts: &mut [u32],
    area: &mut [u32],
    input: &[u8],
    out: &mut [u8],
) -> Fed
    requires { Ready (lent_held reading.old starts.old area.old) }
    ensures fed_to { FedTo (feeding areas (lent_held reading.old starts.old area.old) input.now (length out.old)) (lent_held reading.new starts.new area.new) out.old out.new result }
    ensures same { SameLists reading.old reading.new }
{
    let mut replies = Replies { out, at: 0 };
    for (i, &b) in input.iter().enumerate() {
        if replies.room() < RESERVE {
            return Fed {
                used: i,
                written: replies.at,
            };
        }
        step(reading, starts, area, b, &mut replies);
    }
    Fed {
        used: input.len(),
        written: replies.at,
    }
}

// Takes a block of the input, as much as there is room for the replies to, over lists and an area that are lent, each of any length; where a list is too short,
// or more is named than there is room for, it takes nothing.
pub fn feed(
    reading: &mut LentReading,
    starts: &mut [u32],
    area: &mut [u32],
    input: &[u8],
    out: &mut [u8],
) -> Fed
    ensures fed_to { FedTo (feed areas (lent_held reading.old starts.old area.old) input.now (length out.old)) (lent_held reading.new starts.new area.new) out.old out.new result }
    ensures used_in_bounds { result.used ≤ length input.now }
    ensures same { SameLists reading.old reading.new }
{
    if !fits(reading, starts) {
        return Fed {
            used: 0,
            written: 0,
        };
    }
    feed_on(reading, starts, area, input, out)
}

// At the end of the input: a command that is cut is refused.
#[tactic(auto, unfolding(crate::specs::Program::finish))]
pub fn finish(machine: Machine, out: &mut [u8]) -> usize
    ensures { Put (finished machine (length out.old)) out.old 0 out.new result }
{
    let cut = machine.command.is_some();
    if out.len() < 64 || machine.stopped || !cut {
        return 0;
    }
    let mut replies = Replies { out, at: 0 };
    replies.put_refused(Refusal::BadCommand);
    replies.at
}
