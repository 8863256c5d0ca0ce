// Where the numbers of the area stand.
ghost use Rattle.std.specs.Prelude.{◌≡◌, ◌^◌, ◌<◌, ◌≤◌, length};
ghost use Rattle.merge_area.specs.Layout.{room, cell, head, set_place, set_chunk, side, need, key, into, home, entry_chunk, entry_module};
ghost use Rattle.merge_area.specs.Within.{Within};

use merge_state::Sizes;

// The numbers of the header: how many chunks are initial, how many are made, how many the passes created, how many sets are named, how many list
// entries are in use, and whether merged chunks stand for their target.
// stays: the header's numbers and the area's flags are u32 in the area that C lends.
pub const INITIAL: usize = 0;

pub const MADE: usize = 1;

pub const CREATED: usize = 2;

pub const SETS: usize = 3;

pub const USED: usize = 4;

pub const MODE: usize = 5;

// Where each number of an area stands, by sizes within the limits.
// stays: a method for each lane, as each has its name and its definition in specs/Layout: one with the lane's factor as a parameter would be named by its factor. The
// index is any number below 2 ^ 32, as u32s give it: a type for that would be made at each call: no plainer.
#[derive(Clone, Copy, PartialEq, Eq, Debug)]
pub struct Places {
    pub sizes: Sizes,
    ghost limits: { Within sizes },
}

impl Places {
    // How long an area is at least.
    pub fn room(self) -> usize
        ensures { result ≡ room self.sizes }
    {
        let sizes = self.sizes;
        sizes.chunks * sizes.chunks + 32 * (sizes.chunks + sizes.modules + sizes.entries + 1)
    }

    // Number k of the header.
    pub fn head(self, k: usize) -> usize
        requires { k < 2 ^ 32 }
        ensures { result ≡ head self.sizes k }
    {
        self.sizes.chunks * self.sizes.chunks + k
    }

    // The first of the eight words of set i.
    pub fn set(self, i: usize) -> usize
        requires { i < 2 ^ 32 }
        ensures { result ≡ set_place self.sizes i }
    {
        self.head(32) + 8 * i
    }

    // The chunk of set i.
    pub fn set_chunk(self, i: usize) -> usize
        requires { i < 2 ^ 32 }
        ensures { result ≡ set_chunk self.sizes i }
    {
        self.head(32) + 16 * self.sizes.chunks + i
    }

    // Chunk x's side effects.
    pub fn side(self, x: usize) -> usize
        requires { x < 2 ^ 32 }
        ensures { result ≡ side self.sizes x }
    {
        self.head(32) + 18 * self.sizes.chunks + x
    }

    // Whether chunk x needs creation.
    pub fn need(self, x: usize) -> usize
        requires { x < 2 ^ 32 }
        ensures { result ≡ need self.sizes x }
    {
        self.head(32) + 19 * self.sizes.chunks + x
    }

    // The chunk registered for key k.
    pub fn key(self, k: usize) -> usize
        requires { k < 2 ^ 32 }
        ensures { result ≡ key self.sizes k }
    {
        self.head(32) + 20 * self.sizes.chunks + k
    }

    // The chunk that chunk x was merged into.
    pub fn into(self, x: usize) -> usize
        requires { x < 2 ^ 32 }
        ensures { result ≡ into self.sizes x }
    {
        self.head(32) + 21 * self.sizes.chunks + x
    }

    // Module m's chunk.
    pub fn home(self, m: usize) -> usize
        requires { m < 2 ^ 32 }
        ensures { result ≡ home self.sizes m }
    {
        self.head(32) + 32 * self.sizes.chunks + m
    }

    // The chunk of list entry i.
    pub fn entry_chunk(self, i: usize) -> usize
        requires { i < 2 ^ 32 }
        ensures { result ≡ entry_chunk self.sizes i }
    {
        self.home(0) + 32 * self.sizes.modules + i
    }

    // The module of list entry i.
    pub fn entry_module(self, i: usize) -> usize
        requires { i < 2 ^ 32 }
        ensures { result ≡ entry_module self.sizes i }
    {
        self.entry_chunk(0) + self.sizes.entries + i
    }

    // Number k of an area's header: INITIAL, MADE, CREATED, SETS, USED or MODE.
    pub fn header(self, area: &[u32], k: usize) -> u32
        requires { (room self.sizes ≤ length area.now) × (k < 32) }
        ensures { result ≡ cell area.now (head self.sizes k) }
    {
        area[self.head(k)]
    }
}
