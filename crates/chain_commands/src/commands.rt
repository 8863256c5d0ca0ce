// The commands of the program `moves` that name the chain, load it and move its first atom.
ghost use Rattle.std.specs.Prelude.{◌+◌, ◌-◌, ◌*◌, ◌≤◌, ◌<◌, length};
ghost use Rattle.moves_replies.specs.Wrote.{HasRoom, Wrote};
ghost use Rattle.chain_commands.specs.Commands.{operand, next_atom, depends, load_and_move, in_turn, chain_atom, chain_link};
ghost use Rattle.chain_commands.specs.Printed.{chain_commands};

use moves_replies::Replies;

// An operand of 16 bits, low byte first.
fn put_operand(replies: &mut Replies, x: u16)
    requires { HasRoom 2 replies.old }
    ensures { Wrote (operand x) replies.old replies.new }
{
    replies.put(&x.to_le_bytes());
}

// 10: the next atom and its set.
fn put_atom(replies: &mut Replies, set: u16)
    requires { HasRoom 3 replies.old }
    ensures { Wrote (next_atom set) replies.old replies.new }
{
    replies.put(&[0x10]);
    put_operand(replies, set);
}

// 11: atom a depends on atom b.
fn put_dependency(replies: &mut Replies, a: u16, b: u16)
    requires { HasRoom 5 replies.old }
    ensures { Wrote (depends a b) replies.old replies.new }
{
    replies.put(&[0x11]);
    put_operand(replies, a);
    put_operand(replies, b);
}

// 13 and 20: the load, then atom a to a set.
fn put_move(replies: &mut Replies, a: u16, set: u16)
    requires { HasRoom 6 replies.old }
    ensures { Wrote (load_and_move a set) replies.old replies.new }
{
    replies.put(&[0x13, 0x20]);
    put_operand(replies, a);
    put_operand(replies, set);
}

// Sets 1 to n.
fn put_sets(replies: &mut Replies, n: u16)
    requires { HasRoom (n * 3) replies.old }
    ensures { Wrote (in_turn chain_atom n) replies.old replies.new }
{
    for i in 0..n {
        put_atom(replies, i + 1);
    }
}

// Each of n atoms but the last on the next.
fn put_dependencies(replies: &mut Replies, n: u16)
    requires { (0 < n) × HasRoom ((n - 1) * 5) replies.old }
    ensures { Wrote (in_turn chain_link (n - 1)) replies.old replies.new }
{
    for k in 0..n - 1 {
        put_dependency(replies, k, k + 1);
    }
}

// The chain of n atoms: its sets, its dependencies, the load, and atom 0 to set n + 1.
pub fn put_chain(replies: &mut Replies, n: u16)
    requires { (0 < n) × (n ≤ 512) × HasRoom 4097 replies.old }
    ensures { Wrote (chain_commands n) replies.old replies.new }
{
    put_sets(replies, n);
    put_dependencies(replies, n);
    put_move(replies, 0, n + 1);
}
