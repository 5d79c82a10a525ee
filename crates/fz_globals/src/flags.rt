//! Sets of the indices of Booleans.

ghost use Rattle.std.specs.Prelude.{◌≡◌};
ghost use Rattle.std.specs.FinSet as number_sets;
ghost use Rattle.fz_kernel.specs.of_meaning.Relations.{flags_are, is_flagged};
ghost use Rattle.fz_kernel.specs.Views.{bools};

use crate::indices::{are_indices, index_at};
use fz_kernel::Elements;
use fz_kernel::indices::all_between;
use fz_store::IntSet;

/// Whether the set is that of the indices, from `first` on, of the Booleans that are true.
pub fn is_flagged(set: &IntSet, flags: &Elements, first: i64) -> bool
    ensures exact { result ≡ is_flagged set.now (bools flags.now) first }
{
    are_indices(set, first, flags.len()) && flags_are(first, flags, set)
}

fn flags_are(first: i64, flags: &Elements, set: &IntSet) -> bool
    ensures { result ≡ flags_are first (bools flags.now) set.now }
{
    all_between(0, flags.len(), |place| {
        flags.truth(place) == has(set, index_at(first, place))
    })
}

/// Whether a number is in the set; one of more than 64 bits is not.
pub fn has(set: &IntSet, number: i128) -> bool
    ensures { result ≡ number_sets.contains set.now number }
{
    if number < i128::from(i64::MIN) || number > i128::from(i64::MAX) {
        return !set.within(i64::MIN, i64::MAX);
    }
    set.contains(number as i64)
}
