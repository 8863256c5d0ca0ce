// Reading a program's input.
#![tactic(auto)]

ghost use Rattle.std.specs.Prelude.{◌≤◌, length};

use std::io::Read;

// Reads until the list is full, the input ends or a read fails, and answers how many bytes it put at the start of the list.
// stays: how many reads an input takes is known only when it ends, so that a loop over a range or an iterator would be no plainer
pub fn read_full<R: Read>(reader: &mut R, list: &mut [u8]) -> usize
    ensures { result ≤ length list.new }
{
    let mut done = 0;
    while done < list.len() {
        match reader.read(&mut list[done..]) {
            Ok(0) | Err(_) => break,
            Ok(n) => done += n,
        }
    }
    done
}
