// The program `chain`: reads a number n from standard input, and writes commands of the program `moves` to standard output that load n atoms, each on the
// next, and move the first so that it reaches all others. Which bytes the system's `read` and `write` move no contract can say: that they are called
// with the right lists is to be read in `run` and `reply`.
#![tactic(auto)]

ghost use Rattle.std.specs.Prelude.{◌≤◌, length, take};
ghost use Rattle.moves_replies.specs.Room.{Put};
ghost use Rattle.chain_commands.specs.Printed.{room, printed};
ghost use Rattle.chain.specs.Ran.{Ran};

use program_input::read_full;

// Answers the input, and writes the answer.
fn reply(rt: HostRuntime, input: &[u8], out: &mut [u8]) -> usize
    requires { room ≤ length out.old }
    ensures { Put (printed input.now) out.old 0 out.new result }
{
    let n = chain_commands::answer(input, out);
    let _ = rt.write_all(&out[..n]);
    n
}

// Reads the input to its end, however it comes in pieces, or until the list is full, and answers it. A read that fails is the end of the input.
fn run(rt: HostRuntime, input: &mut [u8], out: &mut [u8]) -> usize
    requires { (5 ≤ length input.old) × (room ≤ length out.old) }
    ensures { Ran input.new out.old out.new result }
{
    let n = read_full(&mut rt.stdin(), input);
    reply(rt, &input[..n], out)
}

fn main(rt: HostRuntime) {
    // stays: memory is fixed, nothing is on the heap
    let mut input = [0u8; 5];
    let mut out = [0u8; 4097];
    run(rt, &mut input, &mut out);
}
