// A command whose operands are read.
ghost use Rattle.std.specs.Prelude.{◌≡◌, [], cond, ◌+◌, ◌≤◌, length, take};
ghost use Rattle.reduced_chunk_graph.specs.Answers.{of_load};
ghost use Rattle.graphs.specs.Tab.{tab};
ghost use Rattle.layout.specs.Patch.{patch};
ghost use Rattle.moves_load_commands.specs.Machine.{start};
ghost use Rattle.moves_load_commands.specs.Lent.{SameLists, shown};
ghost use Rattle.moves_replies.specs.Wrote.{HasRoom, Wrote};
ghost use Rattle.move_load_view.specs.View.{lent_by};
ghost use Rattle.moves_commands.specs.Fits.{Fits, Ready};
ghost use Rattle.moves_commands.specs.Program as def;
ghost use Rattle.moves_commands.specs.Program.{areas, lent, refusal_line};
ghost use Rattle.moves_commands.specs.Steps.{Stepped, lent_held};

use crate::edge_lines::list_edges;
use move_load_view::Load;
use moves_answers::{put_load, put_move, put_set_answer, put_verdict};
use moves_load_commands::{Command, LentReading, Machine, fill_starts};
use moves_replies::Replies;
use reduced_chunk_graph::Verdict;
use refusals::Refusal;

// How many sets there is room for in the work area.
pub(crate) const SETS: usize = 96;

// No atom is fixed.
// stays: memory is fixed, nothing is on the heap
pub(crate) static UNFIXED: [u32; 48] = [0; 48];

// The load that the program lends: of starts and dependencies the part in use.
fn lend<'l>(reading: &'l LentReading, starts: &'l [u32]) -> Load<'l, 'l, 'l>
    requires { Fits (shown reading.now) starts.now }
    ensures { lent_by result ≡ lent (shown reading.now) starts.now }
{
    let machine = reading.machine;
    Load {
        atoms: machine.atoms,
        entries: machine.entries,
        bits: 16,
        starts: &starts[..machine.atoms + 1],
        dependencies: &reading.dependencies[..machine.entries],
        hosts: reading.hosts,
    }
}

// Where each atom's dependencies start, and the last one's end.
fn set_starts(reading: &LentReading, starts: &mut [u32])
    requires { Fits (shown reading.now) starts.old }
    ensures { starts.new ≡ patch 0 (tab (start reading.now.sources.now reading.now.machine.entries) (reading.now.machine.atoms + 1)) starts.old }
{
    let machine = reading.machine;
    fill_starts(
        &reading.sources[..machine.entries],
        &mut starts[..machine.atoms + 1],
    );
}

// A machine that has stopped is a refusal.
#[tactic(auto, using(moves_replies::specs::Wrote::wrote_none))]
pub(crate) fn tell_refused(machine: Machine, replies: &mut Replies)
    requires { HasRoom 64 replies.old }
    ensures { Wrote (cond machine.stopped refusal_line []) replies.old replies.new }
{
    if machine.stopped {
        replies.put_refused(Refusal::BadCommand);
    }
}

// The graph that the program loads, in the work area.
fn load_graph(reading: &LentReading, starts: &[u32], area: &mut [u32]) -> Result<Verdict, Refusal>
    requires { Fits (shown reading.now) starts.now }
    ensures result_value { of_load result ≡ (areas.new (lent (shown reading.now) starts.now) (take reading.now.machine.atoms reading.now.sets.now) area.old).answer }
    ensures area_after { area.new ≡ (areas.new (lent (shown reading.now) starts.now) (take reading.now.machine.atoms reading.now.sets.now) area.old).graph }
{
    let load = lend(reading, starts);
    reduced_chunk_graph::new(
        &load,
        SETS,
        &UNFIXED[..load.atoms],
        &reading.sets[..load.atoms],
        area,
    )
}

// The five commands from here on are functions of their own to the compiler too, so that the working lists of one stand on the stack while it runs, and not
// those of all.

// 13: load. Then the moves begin, unless it is refused.
#[inline(never)]
fn load(reading: &mut LentReading, starts: &mut [u32], area: &mut [u32], replies: &mut Replies)
    requires ready { Ready (lent_held reading.old starts.old area.old) }
    requires room { HasRoom 10240 replies.old }
    ensures stepped { Stepped (def.load areas (lent_held reading.old starts.old area.old)) (lent_held reading.new starts.new area.new) replies.old replies.new }
    ensures same { SameLists reading.old reading.new }
{
    set_starts(reading, starts);
    let verdict = load_graph(reading, starts, area);
    put_load(replies, verdict);
    let refused = verdict.is_err();
    reading.machine = Machine {
        moving: true,
        stopped: refused,
        command: None,
        ..reading.machine
    };
}

// 20: a move.
#[inline(never)]
fn move_atom(
    reading: &mut LentReading,
    starts: &[u32],
    area: &mut [u32],
    command: Command,
    replies: &mut Replies,
)
    requires ready { Ready (lent_held reading.old starts.now area.old) }
    requires room { HasRoom 10240 replies.old }
    ensures stepped { Stepped (def.move areas command (lent_held reading.old starts.now area.old)) (lent_held reading.new starts.now area.new) replies.old replies.new }
    ensures same { SameLists reading.old reading.new }
{
    let load = lend(reading, starts);
    let moved = reduced_chunk_graph::try_move(
        &load,
        SETS,
        &UNFIXED[..load.atoms],
        area,
        command.x,
        &[u64::from(command.y)],
    );
    put_move(replies, moved);
    reading.machine.command = None;
}

// 21: the edges.
#[inline(never)]
#[tactic(auto, using(moves_replies::specs::Wrote::wrote_as), unfolding(crate::specs::Program::edges))]
fn edges(reading: &mut LentReading, starts: &[u32], area: &[u32], replies: &mut Replies)
    requires ready { Ready (lent_held reading.old starts.now area.now) }
    requires room { HasRoom 10240 replies.old }
    ensures stepped { Stepped (def.edges areas (lent_held reading.old starts.now area.now)) (lent_held reading.new starts.now area.now) replies.old replies.new }
    ensures same { SameLists reading.old reading.new }
{
    list_edges(&lend(reading, starts), area, replies);
    reading.machine.command = None;
}

// 22: an atom's set.
#[inline(never)]
#[tactic(auto, using(moves_replies::specs::Wrote::wrote_as), unfolding(crate::specs::Program::set_command))]
fn set_of(
    reading: &mut LentReading,
    starts: &[u32],
    area: &[u32],
    command: Command,
    replies: &mut Replies,
)
    requires ready { Ready (lent_held reading.old starts.now area.now) }
    requires room { HasRoom 10240 replies.old }
    ensures stepped { Stepped (def.set_command areas command (lent_held reading.old starts.now area.now)) (lent_held reading.new starts.now area.now) replies.old replies.new }
    ensures same { SameLists reading.old reading.new }
{
    let load = lend(reading, starts);
    let fixed = &UNFIXED[..load.atoms];
    let set = reduced_chunk_graph::atom_set(&load, SETS, fixed, area, command.y);
    put_set_answer(replies, set);
    reading.machine.command = None;
}

// 23: whether there is a cycle.
#[inline(never)]
#[tactic(auto, using(moves_replies::specs::Wrote::wrote_as), unfolding(crate::specs::Program::cycle))]
fn cycle(reading: &mut LentReading, starts: &[u32], area: &[u32], replies: &mut Replies)
    requires ready { Ready (lent_held reading.old starts.now area.now) }
    requires room { HasRoom 10240 replies.old }
    ensures stepped { Stepped (def.cycle areas (lent_held reading.old starts.now area.now)) (lent_held reading.new starts.now area.now) replies.old replies.new }
    ensures same { SameLists reading.old reading.new }
{
    let load = lend(reading, starts);
    let fixed = &UNFIXED[..load.atoms];
    let verdict = reduced_chunk_graph::has_cycle(&load, SETS, fixed, area);
    put_verdict(replies, verdict);
    reading.machine.command = None;
}

// A command by its number.
// stays: a table of functions would need an index made of the number and a proof of its bound, where the match needs neither: no plainer
#[tactic(auto, using(std::proofs::lemmas::Bool::Decides::nat_tests), unfolding(crate::specs::Program::execute))]
pub(crate) fn execute(
    reading: &mut LentReading,
    starts: &mut [u32],
    area: &mut [u32],
    command: Command,
    replies: &mut Replies,
)
    requires ready { Ready (lent_held reading.old starts.old area.old) }
    requires room { HasRoom 10240 replies.old }
    ensures stepped { Stepped (def.execute areas command (lent_held reading.old starts.old area.old)) (lent_held reading.new starts.new area.new) replies.old replies.new }
    ensures same { SameLists reading.old reading.new }
{
    match command.number {
        0..=0x12 => {
            reading.read(command);
            tell_refused(reading.machine, replies);
        }
        0x13 => load(reading, starts, area, replies),
        0x20 => move_atom(reading, starts, area, command, replies),
        0x21 => edges(reading, starts, area, replies),
        0x22 => set_of(reading, starts, area, command, replies),
        _ => cycle(reading, starts, area, replies),
    }
}
