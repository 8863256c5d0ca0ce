// A set of up to 256 entry bits: four numbers of 64 bits by value, lent lists of such numbers, and words in a work area.
#![tactic(auto)]

ghost use Rattle.std.specs.Prelude.{◌≡◌, ◌+◌, ◌*◌, ◌^◌, ◌<◌, ◌≤◌, length, get_or, take, drop, ltb, IfSome};
ghost use Rattle.std.specs.Option.{unwrap_or};
ghost use Rattle.std.specs.Int.Count.{ones};
ghost use Rattle.std.specs.Cmp.{partial_order_from_own_ties};
ghost use Rattle.std.specs.Cmp.Rules.{comparing};
ghost use Rattle.std.specs.Ordering.{as_partial_cmp};
ghost use Rattle.std.proofs.Common.{rules};
ghost use Rattle.entry_set.specs.Joined.{parts};
ghost use Rattle.entry_set.specs.Sets.{value, legal, width, number, Holds, single_bit};
ghost use Rattle.entry_set.specs.Compared.{highest_first};
ghost use Rattle.entry_set.specs.Lanes.{lanes, set_lanes};

use std::cmp::Ordering;

// Bit 0 is the lowest of the first number.
#[derive(Clone, Copy, Debug, PartialEq, Eq)]
pub struct EntrySet(pub u64, pub u64, pub u64, pub u64);

// A set is below another where its number is: the highest of the four numbers that differ decides. A derive would begin with the lowest.
impl Ord for EntrySet {
    ghost cmp = { highest_first };

    ghost total = { Prim.search (comparing, rules) };

    ghost matches_partial_cmp = { Prim.search (comparing, rules) };

    ghost matches_eq = { Prim.search (comparing, rules) };

    fn cmp(&self, other: &EntrySet) -> Ordering {
        (self.3, self.2, self.1, self.0).cmp(&(other.3, other.2, other.1, other.0))
    }
}

impl PartialOrd for EntrySet {
    ghost partial_cmp = { as_partial_cmp highest_first };

    ghost laws = { partial_order_from_own_ties (Prim.search (comparing, rules) depth 9) (Prim.search (comparing, rules) depth 9) };

    fn partial_cmp(&self, other: &EntrySet) -> Option<Ordering> {
        Some(self.cmp(other))
    }
}

// No bit of x at or above `limit`.
fn below(x: u64, limit: usize) -> bool
    ensures { result ≡ ltb x (2 ^ limit) }
{
    limit >= 64 || x >> limit == 0
}

impl EntrySet {
    // The set of a lent list of at most four numbers.
    // stays: no type keeps that a list has at most four: whoever is lent one makes a set of it at once, and that is the type.
    pub fn from_list(bits: &[u64]) -> EntrySet
        requires { length bits.now ≤ 4 }
        ensures { Holds (value bits.now) result }
    {
        let at = |i: usize| bits.get(i).copied().unwrap_or(0);
        EntrySet(at(0), at(1), at(2), at(3))
    }

    // Set i of a list of sets of w numbers each.
    pub fn at(sets: &[u64], w: usize, i: usize) -> EntrySet
        requires { (w ≤ 4) × (i * w + w ≤ length sets.now) }
        ensures { Holds (value (take w (drop (i * w) sets.now))) result }
    {
        let from = i * w;
        EntrySet::from_list(&sets[from..from + w])
    }

    // The set whose word j stands at at + j * stride.
    pub fn read_lanes(area: &[u32], at: usize, stride: usize) -> EntrySet
        requires { at + 7 * stride < length area.now }
        ensures { Holds (lanes area.now at stride) result }
    {
        let word = |j: usize| u64::from(area[at + j * stride]);
        let pair = |j: usize| word(j) + (word(j + 1) << 32);
        EntrySet(pair(0), pair(2), pair(4), pair(6))
    }

    // Puts word j of the set at at + j * stride.
    pub fn write_lanes(self, area: &mut [u32], at: usize, stride: usize)
        requires { at + 7 * stride < length area.old }
        ensures { area.new ≡ set_lanes area.old at stride (number self) }
    {
        for j in 0..8 {
            area[at + j * stride] = self.word(j);
        }
    }

    // No bit at or above e. Without an early exit, as it is asked of many sets in a row.
    pub fn in_range(self, e: usize) -> bool
        ensures { result ≡ ltb (number self) (2 ^ e) }
    {
        below(self.0, e)
            & below(self.1, e.saturating_sub(64))
            & below(self.2, e.saturating_sub(128))
            & below(self.3, e.saturating_sub(192))
    }

    // How many bits the set has. Of most sets only the first number isn't 0, and to see that is quicker than to count.
    pub fn bit_count(self) -> u32
        ensures { result ≡ ones (number self) }
    {
        if (self.1, self.2, self.3) == (0, 0, 0) {
            return self.0.count_ones();
        }
        self.0.count_ones() + self.1.count_ones() + self.2.count_ones() + self.3.count_ones()
    }

    // The bit of a set of one bit.
    pub fn single_bit(self) -> Option<usize>
        ensures bit { unwrap_or result 256 ≡ single_bit (number self) }
        ensures below_256 { IfSome result (λ b. b < 256) }
    {
        if self.bit_count() != 1 {
            return None;
        }
        let numbers = [self.0, self.1, self.2, self.3];
        let i = numbers.iter().position(|&x| x != 0)?;
        Some(64 * i + numbers[i].trailing_zeros() as usize)
    }

    // The j-th number of 32 bits.
    pub fn word(self, j: usize) -> u32
        requires { j < 8 }
        ensures { result ≡ get_or (parts 32 8 (number self)) j 0 }
    {
        let x = [self.0, self.1, self.2, self.3][j / 2];
        if j % 2 == 0 {
            (x % (1 << 32)) as u32
        } else {
            (x >> 32) as u32
        }
    }
}

// How many numbers a lent set of e bits has.
pub fn set_width(e: usize) -> usize
    requires { e ≤ 256 }
    ensures { result ≡ width e }
{
    e.div_ceil(64)
}

// A lent set has as many numbers as e bits take, and no bit at or above e.
pub fn is_legal(bits: &[u64], e: usize) -> bool
    requires { e ≤ 256 }
    ensures { result ≡ legal e bits.now }
{
    bits.len() == set_width(e) && EntrySet::from_list(bits).in_range(e)
}
