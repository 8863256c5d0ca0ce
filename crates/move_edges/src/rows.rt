// Whether the kept matrix is that of grouped slots, row by row. Each row is read once and to its end, so that several numbers can be compared at once.
ghost use Rattle.std.specs.Prelude.{◌≡◌, ℕ, ◌^◌, ◌<◌, Bool};
ghost use Rattle.graphs.specs.Count.{count};
ghost use Rattle.move_edges.specs.Rows.{CanTally, Tallied, CanWipe, Wiped, numbers_of, CanCompare, CanCount, Compared, CanCheckRow, RowChecked, CanCheck, Checked};

// stays: `n` is how far apart the rows of the square stand, at the front of the area that C lends, and no list's length.

// Each neighbour is counted on top of what stands at it; the answer is how many of them had nothing there.
fn tally(part: &[u32], row: &mut [u32]) -> u32
    requires { CanTally part.now row.old }
    ensures { Tallied part.now row.old row.new result }
{
    let mut found = 0;
    for &node in part {
        let before = row[node as usize];
        row[node as usize] = before + 1;
        found += u32::from(before == 0);
    }
    found
}

// 0 at each neighbour.
fn wipe(part: &[u32], row: &mut [u32])
    requires { CanWipe part.now row.old }
    ensures { Wiped part.now row.old row.new }
{
    for &node in part {
        row[node as usize] = 0;
    }
}

// How many numbers below n pass the test.
fn count_below<F: Fn(usize) -> bool>(n: usize, passes: F) -> u32
    requires few { n < 2 ^ 32 }
    requires callable { (k : ℕ) → k < n → F.pre passes k }
    ensures { (test : ℕ → Bool) → ((k : ℕ) (r : Bool) → F.post passes k r → r ≡ test k) → result ≡ count test n }
{
    let mut found = 0;
    for k in 0..n {
        found += u32::from(passes(k));
    }
    found
}

// How many numbers differ from those of row.
fn compare(numbers: &[u32], row: &[u32]) -> u32
    requires { CanCompare numbers.now row.now }
    ensures { Compared numbers.now (numbers_of row.now) result }
{
    count_below(numbers.len(), |k| numbers[k] != row[k])
}

// How many numbers aren't 0.
pub fn count_filled(numbers: &[u32]) -> u32
    requires { CanCount numbers.now }
    ensures { Compared numbers.now (λ y. 0) result }
{
    count_below(numbers.len(), |k| numbers[k] != 0)
}

// How many edges start at a node, where its row of the matrix counts its neighbours; else None. The numbers of `row` are 0 before and after.
fn check_row(numbers: &[u32], part: &[u32], row: &mut [u32]) -> Option<u32>
    requires { CanCheckRow numbers.now part.now row.old }
    ensures { RowChecked numbers.now part.now row.new result }
{
    if part.is_empty() {
        return if count_filled(numbers) == 0 {
            Some(0)
        } else {
            None
        };
    }
    let found = tally(part, row);
    let unequal = compare(numbers, row);
    wipe(part, row);
    if unequal == 0 { Some(found) } else { None }
}

// Whether each row of the matrix counts its neighbours; if so, degrees has how many edges start at each node.
// The first n numbers of row are scratch.
pub fn check(
    edges: &[u32],
    n: usize,
    starts: &[u32],
    list: &[u32],
    row: &mut [u32],
    degrees: &mut [u32],
) -> bool
    requires { CanCheck edges.now n starts.now list.now row.old degrees.old }
    ensures { Checked edges.now n starts.now list.now degrees.new result }
{
    let row = &mut row[..n];
    row.fill(0);
    for x in 0..n {
        let part = &list[starts[x] as usize..starts[x + 1] as usize];
        match check_row(&edges[x * n..x * n + n], part, row) {
            Some(count) => degrees[x] = count,
            None => return false,
        }
    }
    true
}
