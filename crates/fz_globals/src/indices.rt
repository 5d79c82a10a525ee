//! Indices of elements.

ghost use Rattle.std.specs.Prelude.{◌≡◌, ◌+◌, ◌<◌, ◌≤◌, ◌+ℤ◌, ◌-ℤ◌, ℕ, pos, IfNone, IfSome};
ghost use Rattle.std.specs.Int.{int_min};
ghost use Rattle.std.specs.FinSet.{is_subset};
ghost use Rattle.fz_kernel.specs.of_meaning.Relations.{indices_from};

use fz_store::IntSet;

/// The index, counted from `first`, of a position that is counted from 0.
pub fn index_at(first: i64, place: usize) -> i128
    ensures { result ≡ first +ℤ pos place }
{
    i128::from(first) + place as i128
}

/// The position, counted from 0, of an index that is counted from `first`.
pub(crate) fn place_in(index: i64, first: i64) -> i128
    ensures { result ≡ index -ℤ first }
{
    i128::from(index) - i128::from(first)
}

/// The position, counted from 0, of an index that is counted from `first`, where it is the index of
/// one of `count` elements.
pub fn place_from(index: i64, first: i64, count: usize) -> Option<usize>
    ensures place { IfSome result (λ place. ((index -ℤ first) +ℤ pos 1) ≡ pos (place + 1)) }
    ensures in_range { IfSome result (λ place. place < count) }
    ensures none { IfNone result ((place : ℕ) → ((index -ℤ first) +ℤ pos 1) ≡ pos (place + 1)
        → count ≤ place) }
{
    let place = place_in(index, first);
    if place < 0 {
        return None;
    }
    if place >= count as i128 {
        return None;
    }
    Some(place as usize)
}

/// Whether each number of the set is one of `count` indices that are counted from `first`. It takes
/// no memory.
pub fn are_indices(set: &IntSet, first: i64, count: usize) -> bool
    ensures exact { result ≡ is_subset set.now (indices_from first count) }
{
    if count == 0 {
        return set.len() == 0;
    }
    set.within(first, last_index(first, count))
}

// The last index of so many from `first` on, or the greatest number where that is less.
fn last_index(first: i64, count: usize) -> i64
    requires { 0 < count }
    ensures { result ≡ int_min ((first +ℤ pos count) -ℤ pos 1) (pos 9223372036854775807) }
{
    let last = i128::from(first) + (count as i128 - 1);
    if last < i128::from(i64::MAX) {
        last as i64
    } else {
        i64::MAX
    }
}
