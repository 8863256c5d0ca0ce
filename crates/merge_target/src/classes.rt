// The row that refuses a bank's own classes: not eight, a row that is neither 0 nor 1, or an odd row that isn't 1.
ghost use Rattle.std.specs.Prelude.{◌≡◌, true, false, not, ◌&&◌, ◌%◌, eqb, get_or, MatchOption};
ghost use Rattle.std.specs.List.{list_any, range_with_len};
ghost use Rattle.merge_choice.specs.Find.{row25};

use merge_rows::checks::has_misfit;

// stays: a class is a number, 0 or 1, of a list that C lends; row 25 is what refuses any other.

// An odd row of the eight isn't 1.
fn has_odd_fault(classes: &[u32; 8]) -> bool
    ensures { result ≡ list_any (λ i. eqb (i % 2) 1 && not (eqb (get_or classes.now i 0) 1)) (range_with_len 0 8) }
{
    (0..8).any(|i| i % 2 == 1 && classes[i] != 1)
}

// The eight classes of a list, where row 25 doesn't fit.
pub(crate) fn checked(classes: &[u32]) -> Option<&[u32; 8]>
    ensures { MatchOption result (row25 classes.now ≡ true) (λ eight. (row25 classes.now ≡ false) × (eight.now ≡ classes.now)) }
{
    let eight = classes.as_array::<8>()?;
    if has_misfit(eight, 2, false) || has_odd_fault(eight) {
        return None;
    }
    Some(eight)
}
