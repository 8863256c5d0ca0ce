// The replies of the C interface, and what each is of the answers of both graphs and of the choice of a merge target.
#![tactic(auto)]

ghost use Rattle.std.specs.Prelude.{◌≡◌, Ok, Err};
ghost use Rattle.reduced_chunk_graph.specs.Answers.{of_load, of_move, of_set, of_number, of_rank, of_edge};
ghost use Rattle.chunk_optimizer.specs.Answers.{done_told, temp_told, said_told};
ghost use Rattle.merge_target.specs.Answers.{target_told};
ghost use Rattle.plan_freedom.specs.Told.{of_freedom};
ghost use Rattle.entry_set.specs.Sets.{number};
ghost use Rattle.refusals.specs.Rows.{row};
ghost use Rattle.nidskalm_replies.specs.Replies.{refusing, answering, an_edge, move_reply, try_reply, set_reply, edge_reply, freedom_reply, merge_reply, pass_reply};

use entry_set::EntrySet;
use merge_state::{ChunkIdx, NONE};
use move_freedom::Counts;
use move_questions::Edge;
use move_try::Moved;
use reduced_chunk_graph::Verdict;
use refusals::Refusal;
use std::cmp::Ordering;

// `refusal` is 0 or the number of the row that refuses the call, here and below; the other fields are 0 when refused.
#[repr(C)]
#[derive(Clone, Copy, PartialEq, Eq, Debug, Default)]
pub struct Reply {
    pub refusal: u64,
    pub value: u64,
}

// `accepted` is 1 or 0; where it is 1, how many distinct edges appeared and vanished, and how many other chunks the atom's
// chunk then reaches.
#[repr(C)]
#[derive(Clone, Copy, PartialEq, Eq, Debug, Default)]
pub struct MoveReply {
    pub refusal: u64,
    pub accepted: u64,
    pub appeared: u64,
    pub vanished: u64,
    pub reached: u64,
}

// A set is four numbers, the lowest first.
#[repr(C)]
#[derive(Clone, Copy, PartialEq, Eq, Debug, Default)]
pub struct SetReply {
    pub refusal: u64,
    pub set0: u64,
    pub set1: u64,
    pub set2: u64,
    pub set3: u64,
}

// `found` is 1, or 0 past the last edge.
#[repr(C)]
#[derive(Clone, Copy, PartialEq, Eq, Debug, Default)]
pub struct EdgeReply {
    pub refusal: u64,
    pub found: u64,
    pub from0: u64,
    pub from1: u64,
    pub from2: u64,
    pub from3: u64,
    pub to0: u64,
    pub to1: u64,
    pub to2: u64,
    pub to3: u64,
    pub multiplicity: u64,
}

// For every atom and every occupied set other than its own, how many moves would be accepted, rejected, or refused as the atom is fixed.
#[repr(C)]
#[derive(Clone, Copy, PartialEq, Eq, Debug, Default)]
pub struct FreedomReply {
    pub refusal: u64,
    pub accepted: u64,
    pub rejected: u64,
    pub fixed: u64,
}

// Each answer of the calls is a type of its own, and has its conversion to C's reply.

// The reply of one number: what a function makes of the value, where the call isn't refused.
fn told<T: Drop, F: Fn(T) -> u64>(answer: Result<T, Refusal>, value: F) -> Reply
    requires { F.IsAlwaysCallable value }
    ensures number { (x : _) → answer ≡ Ok x → (k : _) × F.post value x k × (result ≡ answering k) }
    ensures refused { (r : _) → answer ≡ Err r → result ≡ refusing (row r) }
{
    match answer {
        Ok(x) => Reply {
            refusal: 0,
            value: value(x),
        },
        Err(refusal) => Reply {
            refusal: u64::from(refusal.row()),
            value: 0,
        },
    }
}

impl From<Result<Verdict, Refusal>> for Reply {
    ghost from_gives = { λ answer reply. reply ≡ move_reply (of_load answer) };

    #[tactic(auto, unfolding(crate::specs::Replies::move_reply))]
    fn from(answer: Result<Verdict, Refusal>) -> Reply {
        told(answer, |verdict| match verdict {
            Verdict::Acyclic => 0,
            Verdict::Cyclic => 1,
        })
    }
}

impl From<Result<Option<Moved>, Refusal>> for MoveReply {
    ghost from_gives = { λ answer reply. reply ≡ try_reply (of_move answer) };

    #[tactic(auto, unfolding(crate::specs::Replies::try_reply))]
    fn from(answer: Result<Option<Moved>, Refusal>) -> MoveReply {
        match answer {
            Ok(Some(moved)) => MoveReply {
                refusal: 0,
                accepted: 1,
                appeared: u64::from(moved.appeared),
                vanished: u64::from(moved.vanished),
                reached: u64::from(moved.reached),
            },
            Ok(None) => MoveReply::default(),
            Err(refusal) => MoveReply {
                refusal: u64::from(refusal.row()),
                ..MoveReply::default()
            },
        }
    }
}

impl From<Result<Counts, Refusal>> for FreedomReply {
    ghost from_gives = { λ answer reply. reply ≡ freedom_reply (of_freedom answer) };

    #[tactic(auto, unfolding(crate::specs::Replies::freedom_reply))]
    fn from(answer: Result<Counts, Refusal>) -> FreedomReply {
        match answer {
            Ok(counts) => FreedomReply {
                refusal: 0,
                accepted: counts.accepted,
                rejected: counts.rejected,
                fixed: counts.fixed,
            },
            Err(refusal) => FreedomReply {
                refusal: u64::from(refusal.row()),
                ..FreedomReply::default()
            },
        }
    }
}

impl From<Result<u64, Refusal>> for Reply {
    ghost from_gives = { λ answer reply. reply ≡ move_reply (of_number answer) };

    #[tactic(auto, unfolding(crate::specs::Replies::move_reply))]
    fn from(answer: Result<u64, Refusal>) -> Reply {
        told(answer, |number| number)
    }
}

impl From<Result<Ordering, Refusal>> for Reply {
    ghost from_gives = { λ answer reply. reply ≡ move_reply (of_rank answer) };

    #[tactic(auto, unfolding(crate::specs::Replies::move_reply))]
    fn from(answer: Result<Ordering, Refusal>) -> Reply {
        told(answer, |order| match order {
            Ordering::Less => 0,
            Ordering::Equal => 1,
            Ordering::Greater => 2,
        })
    }
}

impl From<Result<EntrySet, Refusal>> for SetReply {
    ghost from_gives = { λ answer reply. reply ≡ set_reply (of_set answer) };

    #[tactic(auto, unfolding(crate::specs::Replies::set_reply))]
    fn from(answer: Result<EntrySet, Refusal>) -> SetReply {
        match answer {
            Ok(set) => SetReply {
                refusal: 0,
                set0: set.0,
                set1: set.1,
                set2: set.2,
                set3: set.3,
            },
            Err(refusal) => SetReply {
                refusal: u64::from(refusal.row()),
                ..SetReply::default()
            },
        }
    }
}

// An edge reply with an edge.
fn found(edge: Edge) -> EdgeReply
    ensures { result ≡ an_edge (number edge.from) (number edge.to) edge.multiplicity }
{
    let from = edge.from;
    let to = edge.to;
    EdgeReply {
        refusal: 0,
        found: 1,
        from0: from.0,
        from1: from.1,
        from2: from.2,
        from3: from.3,
        to0: to.0,
        to1: to.1,
        to2: to.2,
        to3: to.3,
        multiplicity: u64::from(edge.multiplicity),
    }
}

impl From<Result<Option<Edge>, Refusal>> for EdgeReply {
    ghost from_gives = { λ answer reply. reply ≡ edge_reply (of_edge answer) };

    #[tactic(auto, unfolding(crate::specs::Replies::edge_reply))]
    fn from(answer: Result<Option<Edge>, Refusal>) -> EdgeReply {
        match answer {
            Ok(Some(edge)) => found(edge),
            Ok(None) => EdgeReply::default(),
            Err(refusal) => EdgeReply {
                refusal: u64::from(refusal.row()),
                ..EdgeReply::default()
            },
        }
    }
}

impl From<Result<(), Refusal>> for Reply {
    ghost from_gives = { λ answer reply. reply ≡ merge_reply (done_told answer) };

    #[tactic(auto, unfolding(crate::specs::Replies::merge_reply))]
    fn from(answer: Result<(), Refusal>) -> Reply {
        told(answer, |()| 0)
    }
}

// A chunk's number, or 4,294,967,295: the chunk of a key, and the target of a merge.
impl From<Result<Option<ChunkIdx>, Refusal>> for Reply {
    ghost from_gives = { λ answer reply. (reply ≡ merge_reply (temp_told answer)) × (reply ≡ merge_reply (target_told answer)) };

    #[tactic(auto, unfolding(crate::specs::Replies::merge_reply))]
    fn from(answer: Result<Option<ChunkIdx>, Refusal>) -> Reply {
        told(answer, |chunk| match chunk {
            Some(chunk) => u64::from(chunk.0),
            None => u64::from(NONE),
        })
    }
}

impl From<Result<bool, Refusal>> for Reply {
    ghost from_gives = { λ answer reply. reply ≡ merge_reply (said_told answer) };

    #[tactic(auto, unfolding(crate::specs::Replies::merge_reply))]
    fn from(answer: Result<bool, Refusal>) -> Reply {
        told(answer, u64::from)
    }
}

impl From<Result<u32, Refusal>> for Reply {
    ghost from_gives = { λ answer reply. reply ≡ pass_reply answer };

    fn from(answer: Result<u32, Refusal>) -> Reply {
        told(answer, u64::from)
    }
}
