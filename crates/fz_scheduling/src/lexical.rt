//! Lexicographic order: the first index at which two arrays differ tells, and a proper prefix comes
//! first.
ghost use Rattle.std.specs.Prelude.{◌≡◌, ◌&&◌, not, int_lt};
ghost use Rattle.fz_kernel.specs.of_meaning.Relations.{◌=ℤ◌, ◌=ᴮ◌, is_before};
ghost use Rattle.fz_kernel.specs.Views.{bools, ints};

use crate::reading::{number_at, number_count, truth_at, truth_count};
use fz_kernel::Elements;

/// Whether the numbers of `a` come before those of `b`.
pub fn ints_are_before(a: &Elements, b: &Elements) -> bool
    ensures exact { result ≡ is_before int_lt ◌=ℤ◌ (ints a.now) (ints b.now) }
{
    for place in 0..number_count(a).min(number_count(b)) {
        let (x, y) = (number_at(a, place), number_at(b, place));
        if x != y {
            return x < y;
        }
    }
    number_count(a) < number_count(b)
}

/// Whether the Booleans of `a` come before those of `b`; false comes before true.
pub fn bools_are_before(a: &Elements, b: &Elements) -> bool
    ensures exact { result ≡ is_before (λ x y. not x && y) ◌=ᴮ◌ (bools a.now) (bools b.now) }
{
    for place in 0..truth_count(a).min(truth_count(b)) {
        let (x, y) = (truth_at(a, place), truth_at(b, place));
        if x != y {
            return y;
        }
    }
    truth_count(a) < truth_count(b)
}
