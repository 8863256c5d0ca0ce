// The nodes of a checked area: the registered sets.
ghost use Rattle.std.specs.Prelude.{◌≡◌, ℕ, ◌+◌, ◌*◌, ◌/◌, ◌%◌, ◌^◌, ◌<◌, ◌≤◌, eqb, length, get_or};

use move_area::Area;

// The area, and how many of its sets are registered.
// stays: it lends a slice and is neither compared nor printed, so no more is derived.
#[derive(Clone, Copy)]
pub struct Nodes<'g> {
    pub area: Area<'g>,
    pub registered: usize,
    ghost room: { area.n * area.n + 24 + 24 * area.n ≤ length area.numbers.now },
    ghost small: { area.n ≤ 1024 },
    ghost few: { registered ≤ area.n },
}

// Whether the bit at `shift` of the number at `at` is set.
fn has_bit(area: &[u32], at: usize, shift: usize) -> bool
    requires { (at < length area.now) × (shift < 32) }
    ensures value { result ≡ eqb (get_or area.now at 0 / 2 ^ shift % 2) 1 }
    ensures words { (i : ℕ) → get_or area.now i 0 < 2 ^ 32 }
{
    (area[at] >> shift) % 2 == 1
}

impl Nodes<'_> {
    ghost use Rattle.start_order.specs.Bits.{picks};
    ghost use Rattle.start_order.specs.Steps.{leads};

    // Whether node x has an atom and its set holds the bit.
    pub(crate) fn is_root(&self, bit: usize, x: usize) -> bool
        requires { (bit < 256) × (x < self.now.area.n) }
        ensures { result ≡ picks self.now.area.numbers.now self.now.area.n bit x }
    {
        let n = self.area.n;
        let lanes = n * n + 24;
        self.area.numbers[lanes + 8 * n + x] != 0
            && has_bit(self.area.numbers, lanes + bit / 32 * n + x, bit % 32)
    }

    // Whether there is an edge from node x to node y.
    pub(crate) fn has_edge(&self, x: usize, y: usize) -> bool
        requires { (x < self.now.area.n) × (y < self.now.area.n) }
        ensures { result ≡ leads self.now.area.numbers.now self.now.area.n y x }
    {
        self.area.multiplicity(x, y) != 0
    }
}
