// Runs inputs of the program `moves` through the interpreter, each from the start. Standard input holds them one after the other, each behind its
// length, two bytes, low byte first.
#![tactic(auto)]

use moves_load_commands::{LentReading, Machine};
use program_input::read_full;

// stays: memory is fixed, nothing is on the heap: the arrays of this file

fn run_case(rt: HostRuntime, input: &[u8]) {
    let mut sets = [0u64; 48];
    let mut sources = [0u32; 128];
    let mut dependencies = [0u32; 128];
    let mut hosts = [u32::MAX; 16];
    let mut starts = [0u32; 49];
    let mut area = [0u32; 16384];
    let mut reading = LentReading {
        machine: Machine::new(),
        sets: &mut sets,
        sources: &mut sources,
        dependencies: &mut dependencies,
        hosts: &mut hosts,
    };
    let mut out = [0u8; 65536];
    let n = moves_commands::feed(&mut reading, &mut starts, &mut area, input, &mut out).written;
    let _ = rt.write_all(&out[..n]);
    let mut last = [0u8; 64];
    let k = moves_commands::finish(reading.machine, &mut last);
    let _ = rt.write_all(&last[..k]);
}

// stays: how long a case is only its first two bytes tell, so that a loop over a range or an iterator would be no plainer
fn run_cases(rt: HostRuntime, input: &[u8]) {
    let mut rest = input;
    let mut case: u64 = 0;
    while let [low, high, behind @ ..] = rest {
        let size = usize::from(u16::from_le_bytes([*low, *high]));
        if behind.len() < size {
            return;
        }
        case += 1;
        let _ = println!(rt; "case {case}");
        run_case(rt, &behind[..size]);
        rest = &behind[size..];
    }
}

fn main(rt: HostRuntime) {
    let mut input = [0u8; 65536];
    let n = read_full(&mut rt.stdin(), &mut input);
    run_cases(rt, &input[..n]);
}
