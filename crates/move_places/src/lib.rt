// The set that gives up its place: the smallest, as a number, of those without an atom.
#![tactic(auto)]

ghost use Rattle.std.specs.Prelude.{◌≡◌, ◌<◌, IfSome};
ghost use Rattle.std.specs.Option.{unwrap_or};
ghost use Rattle.set_order.specs.Order.{set_in};
ghost use Rattle.move_places.specs.Least.{empty, smaller, CanChoose, CanScan, Least};

use set_order::Lanes;

// Of node x and the best one before it: x where it has no atom and its set is the smaller.
fn choose(lanes: &Lanes, counts: usize, best: Option<usize>, x: usize) -> Option<usize>
    requires { CanChoose lanes.now.area.now lanes.now.n counts best x }
    ensures value { unwrap_or result lanes.now.n ≡ smaller (set_in lanes.now) (empty lanes.now.area.now counts) lanes.now.n (unwrap_or best lanes.now.n) x }
    ensures inside { IfSome result (λ b. b < lanes.now.n) }
{
    if lanes.area[counts + x] != 0 {
        return best;
    }
    match best {
        Some(other) if !lanes.below(8, x as u32, other as u32) => best,
        _ => Some(x),
    }
}

// The node of the smallest empty set. The nodes' atom counts stand in the lanes' area, from `counts` on.
pub fn smallest_empty(lanes: &Lanes, counts: usize) -> Option<usize>
    requires { CanScan lanes.now.area.now lanes.now.n counts }
    ensures least { Least (set_in lanes.now) (empty lanes.now.area.now counts) lanes.now.n lanes.now.n (unwrap_or result lanes.now.n) }
    ensures inside { IfSome result (λ b. b < lanes.now.n) }
{
    let mut best = None;
    for x in 0..lanes.n {
        best = choose(lanes, counts, best, x);
    }
    best
}
