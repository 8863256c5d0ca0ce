// What the bits of a set name.
ghost use Rattle.std.specs.Prelude.{◌≡◌, ◌/◌, ◌%◌, ◌^◌, ◌<◌, length, eqb, get_or, All};
ghost use Rattle.entry_set.specs.Sets.{number};
ghost use Rattle.merge_choice.specs.Choice.{bits, role};
ghost use Rattle.merge_choice.specs.Named.{reads, CanName};
ghost use Rattle.merge_target.specs.Roles.{role_number, numbers};

use entry_set::EntrySet;

// What a bit of a candidate's set names.
#[derive(Clone, Copy, PartialEq, Eq, Debug)]
pub(crate) enum Role {
    Nothing,
    DynamicEntry,
    UserEntry,
    CommonChunk,
}

// How many of k chunks the bits of a set can name.
#[tactic(auto, unfolding(merge_choice::specs::Choice::bits))]
pub(crate) fn bits(k: usize) -> usize
    ensures { result ≡ bits k }
{
    k.min(256)
}

// Bit b of the set.
fn has_bit(set: EntrySet, b: usize) -> bool
    requires { b < 256 }
    ensures { result ≡ eqb (number set / 2 ^ b % 2) 1 }
{
    (set.word(b / 32) >> (b % 32)) % 2 == 1
}

// The role of chunk b.
// stays: a kind is a number from 0 to 8, and a class 0 or 1, in lists that C lends; from here on they are a Role.
#[tactic(auto, unfolding(merge_choice::specs::Choice::role))]
fn role_of(kinds: &[u32], classes: &[u32; 8], set: EntrySet, b: usize) -> Role
    requires { CanName kinds.now classes.now b }
    ensures { role_number result ≡ role classes.now kinds.now (number set) b }
{
    if !has_bit(set, b) {
        return Role::Nothing;
    }
    match kinds[b] {
        8 => Role::CommonChunk,
        kind if classes[kind as usize] == 1 => Role::UserEntry,
        _ => Role::DynamicEntry,
    }
}

// The role of each chunk: of those that no bit can name, nothing.
pub(crate) fn table(kinds: &[u32], classes: &[u32; 8], set: EntrySet) -> [Role; 1024]
    requires { All (λ kind. kind < 9) kinds.now }
    ensures { reads (numbers result) ≡ role classes.now kinds.now (number set) }
{
    let mut roles = [Role::Nothing; 1024]; // stays: memory is fixed, nothing is on the heap
    for b in 0..bits(kinds.len()) {
        roles[b] = role_of(kinds, classes, set, b);
    }
    roles
}

// Chunk d is a dynamic entry that is named.
pub(crate) fn is_dynamic(roles: &[Role], d: usize) -> bool
    ensures { result ≡ eqb (get_or (numbers roles.now) d 0) 1 }
{
    matches!(roles.get(d), Some(Role::DynamicEntry))
}

// The same by the table that has a place for each chunk.
pub(crate) fn is_named(table: &[Role; 1024], d: usize) -> bool
    requires { d < 1024 }
    ensures { result ≡ eqb (get_or (numbers table.now) d 0) 1 }
{
    table[d] == Role::DynamicEntry
}
