// The program `chain` as a function on slices: the input in, the bytes that it prints out.
#![tactic(auto)]

mod commands;
mod number;

ghost use Rattle.std.specs.Prelude.{length};
ghost use Rattle.moves_replies.specs.Room.{Put};
ghost use Rattle.moves_replies.specs.Wrote.{HasRoom, Wrote};
ghost use Rattle.chain_commands.specs.Printed.{printed, fitting};

use moves_replies::Replies;
use refusals::Refusal;

// As many bytes as the longest answer has.
const ROOM: usize = 4097;

// What the program prints to an input.
#[tactic(auto, unfolding(crate::specs::Printed::printed))]
fn put_answer(replies: &mut Replies, input: &[u8])
    requires { HasRoom 4097 replies.old }
    ensures { Wrote (printed input.now) replies.old replies.new }
{
    match number::asked(input) {
        Some(n) => commands::put_chain(replies, n),
        None => replies.put_refused(Refusal::BadCommand),
    }
}

// Writes what the program prints to an input at the start of a list, and answers how many bytes that are; nothing where the list has no room for the
// longest answer.
pub fn answer(input: &[u8], out: &mut [u8]) -> usize
    ensures { Put (fitting input.now (length out.old)) out.old 0 out.new result }
{
    if out.len() < ROOM {
        return 0;
    }
    let mut replies = Replies { out, at: 0 };
    put_answer(&mut replies, input);
    replies.at
}
