// The program `moves`: reads commands from standard input to its end, and writes the replies to standard output. Which bytes the system's `read` and `write`
// move no contract can say: that they are called with the right lists is to be read in `read_block`, `feed_once` and `end`.
#![tactic(auto)]

ghost use Rattle.std.specs.Prelude.{◌≡◌, ◌<◌, ◌≤◌, length, take};
ghost use Rattle.std.specs.Result.{result_unwrap_or};
ghost use Rattle.moves_commands.specs.Program.{finish, fresh};
ghost use Rattle.moves_commands.specs.Fits.{Ready};
ghost use Rattle.moves_commands.specs.Steps.{lent_held};
ghost use Rattle.moves.specs.Turns.{Answered, TookAll, TookRead, RanOut, StartsWith};

use moves_commands::Fed;
use moves_load_commands::{LentReading, Machine};
use std::io;
use std::io::Read as _;

// A proved loop has to end, and nothing says that the input does: no run uses up so many reads.
const READS: u64 = 9223372036854775808;

// How many bytes of replies are written at once: room for the longest one.
const OUT: usize = 65536;

// What the system answered to a read, and whether the program goes on from it: else how many bytes were taken.
#[derive(Drop)]
struct Read {
    got: io::Result<usize>,
    taken: Result<(), usize>,
}

// Feeds as much as there is room for the replies to, and writes them. Where they can't be written the program stops.
// stays: `Ready` is asked here and below, as no type says it (moves_commands)
fn feed_once(
    rt: HostRuntime,
    reading: &mut LentReading,
    starts: &mut [u32],
    area: &mut [u32],
    input: &[u8],
    out: &mut [u8; OUT],
) -> Result<Fed, Fed>
    requires ready { Ready (lent_held reading.old starts.old area.old) }
    requires input_nonzero { 0 < length input.now }
    ensures { Answered (lent_held reading.old starts.old area.old) input.now (lent_held reading.new starts.new area.new) result out.new }
{
    let fed = moves_commands::feed(reading, starts, area, input, out);
    if rt.write_all(&out[..fed.written]).is_err() {
        reading.machine.stopped = true;
        return Err(fed);
    }
    Ok(fed)
}

// Feeds a block of the input, all of it where the replies can be written.
// stays: how many bytes a turn takes only the turn tells, so that a loop over a range or an iterator would be no plainer
fn feed_block(
    rt: HostRuntime,
    reading: &mut LentReading,
    starts: &mut [u32],
    area: &mut [u32],
    input: &[u8],
    out: &mut [u8; OUT],
) -> Result<(), usize>
    requires { Ready (lent_held reading.old starts.old area.old) }
    ensures { TookAll (lent_held reading.old starts.old area.old) input.now (lent_held reading.new starts.new area.new) result }
{
    let mut at = 0;
    while at < input.len() {
        match feed_once(rt, reading, starts, area, &input[at..], out) {
            Ok(fed) => at += fed.used,
            Err(fed) => return Err(at + fed.used),
        }
    }
    Ok(())
}

// At the end of the input: writes the last reply, and answers how many bytes it has.
fn end(rt: HostRuntime, machine: Machine, out: &mut [u8; OUT]) -> usize
    ensures { (result ≡ length (finish machine)) × StartsWith (finish machine) out.new }
{
    let n = moves_commands::finish(machine, out);
    let _ = rt.write_all(&out[..n]);
    n
}

// Feeds the bytes that a read gave. Where it gave none the program ends.
#[tactic(auto, using(crate::proofs::Turning::read_none, crate::proofs::Turning::read_some))]
fn feed_read(
    rt: HostRuntime,
    reading: &mut LentReading,
    starts: &mut [u32],
    area: &mut [u32],
    input: &[u8],
    out: &mut [u8; OUT],
) -> Result<(), usize>
    requires { Ready (lent_held reading.old starts.old area.old) }
    ensures { TookRead (lent_held reading.old starts.old area.old) input.now (lent_held reading.new starts.new area.new) result out.new }
{
    if input.is_empty() {
        end(rt, reading.machine, out);
        reading.machine.stopped = true;
        return Err(0);
    }
    feed_block(rt, reading, starts, area, input, out)
}

// Reads a block and feeds it, all that the read gave. A read that fails is the end of the input.
fn read_block(
    rt: HostRuntime,
    reading: &mut LentReading,
    starts: &mut [u32],
    area: &mut [u32],
    input: &mut [u8],
    out: &mut [u8; OUT],
) -> Read
    requires { Ready (lent_held reading.old starts.old area.old) }
    ensures took_read { TookRead (lent_held reading.old starts.old area.old) (take (result_unwrap_or result.got 0) input.new) (lent_held reading.new starts.new area.new) result.taken out.new }
    ensures in_bounds { result_unwrap_or result.got 0 ≤ length input.new }
{
    let got = rt.stdin().read(input);
    let n = match &got {
        Ok(n) => *n,
        Err(_) => 0,
    };
    let taken = feed_read(rt, reading, starts, area, &input[..n], out);
    Read { got, taken }
}

// Reads until the machine has stopped, and answers how many bytes the reads gave, modulo 2^64.
fn run(
    rt: HostRuntime,
    reading: &mut LentReading,
    starts: &mut [u32],
    area: &mut [u32],
    input: &mut [u8],
    out: &mut [u8; OUT],
) -> u64
    requires { lent_held reading.old starts.old area.old ≡ fresh area.old }
    ensures { RanOut (fresh area.old) (lent_held reading.new starts.new area.new) result }
{
    let mut bytes: u64 = 0;
    for _ in 0..READS {
        let block = read_block(rt, reading, starts, area, input, out);
        bytes = bytes.wrapping_add(block.got.unwrap_or(0) as u64);
        if reading.machine.stopped {
            return bytes;
        }
    }
    bytes
}

fn main(rt: HostRuntime) {
    // stays: memory is fixed, nothing is on the heap. The lists are lent one by one: an interpreter that owns them was tried, and the program then takes a third
    // more stack, since what a function answers is copied
    let mut sets = [0u64; 48];
    let mut sources = [0u32; 128];
    let mut dependencies = [0u32; 128];
    let mut hosts = [u32::MAX; 16];
    let mut starts = [0u32; 49];
    let mut area = [0u32; 16384];
    let mut input = [0u8; 65536];
    let mut out = [0u8; OUT];
    let mut reading = LentReading {
        machine: Machine::new(),
        sets: &mut sets,
        sources: &mut sources,
        dependencies: &mut dependencies,
        hosts: &mut hosts,
    };
    run(
        rt,
        &mut reading,
        &mut starts,
        &mut area,
        &mut input,
        &mut out,
    );
}
