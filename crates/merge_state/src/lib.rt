// The merge graph: its index types and sizes; definitions and theorems.
#![tactic(auto)]

ghost use Rattle.std.specs.Prelude.{◌≡◌};
ghost use Rattle.merge_state.specs.Named.{named};

// C, M, L and E: how many chunks, modules and list entries there is room for, and how many entry bits.
#[derive(Clone, Copy, PartialEq, Eq, Debug)]
pub struct Sizes {
    pub chunks: usize,
    pub modules: usize,
    pub entries: usize,
    pub bits: usize,
}

// A chunk, by its number.
#[derive(Clone, Copy, PartialEq, Eq, Debug)]
pub struct ChunkIdx(pub u32);

// A module, by its number.
#[derive(Clone, Copy, PartialEq, Eq, Debug)]
pub struct ModuleIdx(pub u32);

// No chunk, in a list of numbers.
// stays: lists and areas that C lends hold it; `ChunkIdx::named` makes an Option of it.
pub const NONE: u32 = 4294967295;

impl ChunkIdx {
    // The chunk that a number of a list names.
    pub fn named(number: u32) -> Option<ChunkIdx>
        ensures { result ≡ named number }
    {
        if number == NONE {
            None
        } else {
            Some(ChunkIdx(number))
        }
    }
}
