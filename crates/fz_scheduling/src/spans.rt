//! Spans: each begins at the number of one array, and is as long as that of another.

ghost use Rattle.std.specs.Prelude.{◌≡◌, ◌<◌, ◌+◌, drop, length};
ghost use Rattle.std.specs.List.{list_all, zip};
ghost use Rattle.fz_kernel.specs.of_meaning.Relations.{all_pairs, are_apart, ends_before, last_naturally, runs_at};
ghost use Rattle.fz_kernel.specs.Views.{ints};
ghost use Rattle.fz_scheduling.specs.Places.{keep_apart, span_at};

use crate::reading::{common_places, is_natural_at, is_zero_at, number_at};
use fz_kernel::Elements;
use fz_kernel::indices::{all_between, all_pairs};
use fz_kernel::numbers::sum;

/// Whether the span at an index covers the number.
#[inline(always)]
pub fn runs_at(number: i64, starts: &Elements, lengths: &Elements, place: usize) -> bool
    ensures exact { result ≡ runs_at number (span_at (ints starts.now) (ints lengths.now) place) }
{
    let start = number_at(starts, place);
    start <= number && i128::from(number) < sum(start, number_at(lengths, place))
}

/// Whether the one span ends where the other begins, or before.
#[inline(always)]
pub fn ends_before(starts: &Elements, lengths: &Elements, one: usize, other: usize) -> bool
    ensures { result ≡ ends_before (span_at (ints starts.now) (ints lengths.now) one)
        (span_at (ints starts.now) (ints lengths.now) other) }
{
    sum(number_at(starts, one), number_at(lengths, one)) <= i128::from(number_at(starts, other))
}

/// Whether the spans at two indices have nothing in common.
#[inline(always)]
pub fn are_apart(starts: &Elements, lengths: &Elements, one: usize, other: usize) -> bool
    ensures { result ≡ are_apart (span_at (ints starts.now) (ints lengths.now) one)
        (span_at (ints starts.now) (ints lengths.now) other) }
{
    ends_before(starts, lengths, one, other) || ends_before(starts, lengths, other, one)
}

// The same, but where empty spans are exempt it is enough that one of them is empty.
#[inline(always)]
fn keep_apart(spare: bool, starts: &Elements, lengths: &Elements, one: usize, other: usize) -> bool
    ensures { result ≡ keep_apart spare (span_at (ints starts.now) (ints lengths.now) one)
        (span_at (ints starts.now) (ints lengths.now) other) }
{
    (spare && (is_zero_at(lengths, one) || is_zero_at(lengths, other)))
        || are_apart(starts, lengths, one, other)
}

/// Whether no two spans have anything in common; empty ones may be exempt.
pub fn all_keep_apart(spare: bool, starts: &Elements, lengths: &Elements) -> bool
    ensures { result ≡ all_pairs (keep_apart spare) (zip (ints starts.now) (ints lengths.now)) }
{
    let count = common_places(starts, lengths);
    all_pairs(
        count,
        |one, other| keep_apart(spare, starts, lengths, one, other),
    )
}

/// Whether no span has a negative length.
pub fn last_naturally(starts: &Elements, lengths: &Elements) -> bool
    ensures { result ≡ last_naturally (zip (ints starts.now) (ints lengths.now)) }
{
    let count = common_places(starts, lengths);
    all_between(0, count, |place| is_natural_at(lengths, place))
}
