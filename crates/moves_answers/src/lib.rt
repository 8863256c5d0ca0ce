// The lines that the program `moves` writes for the move graph's answers.
#![tactic(auto)]

ghost use Rattle.moves_replies.specs.Words.{reply, load_reply};
ghost use Rattle.moves_replies.specs.Wrote.{HasRoom, Wrote};
ghost use Rattle.reduced_chunk_graph.specs.Answers.{of_load, of_move, of_set};
ghost use Rattle.move_questions.specs.Answers.{of_listed};

use entry_set::EntrySet;
use move_questions::Edge;
use move_try::Moved;
use moves_replies::Replies;
use reduced_chunk_graph::Verdict;
use refusals::Refusal;

// stays: answers are printed by hand: a `Display` promises its bytes only where the writer answers Ok, and here each line is promised: no plainer, as
// moves_replies says
// stays: `HasRoom` is asked reply by reply, as in moves_replies: room shrinks with each reply, and a type for each room would be no plainer
#[tactic(auto, unfolding(moves_replies::specs::Words::reply))]
pub fn put_verdict(replies: &mut Replies, answer: Result<Verdict, Refusal>)
    requires { HasRoom 64 replies.old }
    ensures { Wrote (reply (of_load answer)) replies.old replies.new }
{
    match answer {
        Ok(Verdict::Acyclic) => replies.put(b"acyclic\n"),
        Ok(Verdict::Cyclic) => replies.put(b"cyclic\n"),
        Err(refusal) => replies.put_refused(refusal),
    }
}

pub fn put_load(replies: &mut Replies, answer: Result<Verdict, Refusal>)
    requires { HasRoom 128 replies.old }
    ensures { Wrote (load_reply (of_load answer)) replies.old replies.new }
{
    replies.put(b"load ");
    put_verdict(replies, answer);
}

#[tactic(auto, unfolding(moves_replies::specs::Words::reply))]
pub fn put_move(replies: &mut Replies, answer: Result<Option<Moved>, Refusal>)
    requires { HasRoom 64 replies.old }
    ensures { Wrote (reply (of_move answer)) replies.old replies.new }
{
    match answer {
        Ok(Some(_)) => replies.put(b"accepted\n"),
        Ok(None) => replies.put(b"rejected\n"),
        Err(refusal) => replies.put_refused(refusal),
    }
}

// With 16 bits a set is its first number.
#[tactic(auto, unfolding(moves_replies::specs::Words::reply))]
pub fn put_set_answer(replies: &mut Replies, answer: Result<EntrySet, Refusal>)
    requires { HasRoom 64 replies.old }
    ensures { Wrote (reply (of_set answer)) replies.old replies.new }
{
    match answer {
        Ok(set) => replies.put_set(set.0),
        Err(refusal) => replies.put_refused(refusal),
    }
}

// The line of an edge; nothing where there is none.
pub fn put_listed(replies: &mut Replies, edge: Option<Edge>)
    requires { HasRoom 64 replies.old }
    ensures { Wrote (reply (of_listed edge)) replies.old replies.new }
{
    if let Some(edge) = edge {
        replies.put_edge(edge.from.0, edge.to.0, u64::from(edge.multiplicity));
    }
}
