// Whether the kept totals are those of what is worked out.
ghost use Rattle.std.specs.Prelude.{◌≡◌, ◌≤◌, length};
ghost use Rattle.graphs.specs.Bools.{Decides};
ghost use Rattle.graphs.specs.Total.{total};
ghost use Rattle.move_ledger.specs.Graph.{at};
ghost use Rattle.move_consistency.specs.Ready.{Lanes};
ghost use Rattle.move_consistency.specs.Totals.{TotalsAre};

use move_area::{Area, DISTINCT, OCCUPIED};

// The sum of the numbers.
pub fn sum(degrees: &[u32]) -> u64
    requires { length degrees.now ≤ 1024 }
    ensures { result ≡ total (at degrees.now) (length degrees.now) }
{
    degrees.iter().map(|&degree| u64::from(degree)).sum()
}

// Whether the header has these numbers of chunks and of distinct edges.
pub fn totals_are(area: &Area, chunks: u32, edges: u64) -> bool
    requires { Lanes area.now.numbers.now area.now.n }
    ensures { Decides (TotalsAre chunks edges area.now.n area.now.numbers.now) result }
{
    area.header(OCCUPIED) == chunks && u64::from(area.header(DISTINCT)) == edges
}
