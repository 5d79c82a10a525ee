//! What lies in bins: each thing has a bin and a weight.
ghost use Rattle.std.specs.Prelude.{◌≡◌, ◌&&◌, ◌+ℤ◌, ◌-ℤ◌, pos, int_le, length};
ghost use Rattle.std.specs.List.{list_all};
ghost use Rattle.fz_kernel.specs.of_meaning.Relations.{◌=ℤ◌, lies_between, load_of, loads_are};
ghost use Rattle.fz_kernel.specs.Views.{ints};
ghost use Rattle.fz_scheduling.specs.Places.{number_at};

use crate::reading::{common_places, number_at, number_count};
use fz_kernel::Elements;
use fz_kernel::indices::all_between;

/// Whether the load of each bin that something lies in is at most the capacity.
pub fn loads_are_within(bins: &Elements, weights: &Elements, capacity: i64) -> bool
    ensures exact { result ≡ list_all
        (λ v. int_le (load_of (ints bins.now) (ints weights.now) v) capacity) (ints bins.now) }
{
    all_between(
        0,
        number_count(bins),
        |place| is_within(bins, weights, capacity, place),
    )
}

// Whether the load of the bin at an index of the list is at most the capacity.
fn is_within(bins: &Elements, weights: &Elements, capacity: i64, place: usize) -> bool
    ensures { result ≡ int_le (load_of (ints bins.now) (ints weights.now)
        (number_at (ints bins.now) place)) capacity }
{
    load_of(i128::from(number_at(bins, place)), bins, weights) <= i128::from(capacity)
}

/// Whether each bin is one of those that a load is given for, from `first` on, and each of these
/// has its load.
pub fn loads_are_given(first: i64, bins: &Elements, weights: &Elements, loads: &Elements) -> bool
    ensures exact { result ≡ (list_all (lies_between first
        ((first +ℤ pos (length (ints loads.now))) -ℤ pos 1)) (ints bins.now)
        && loads_are first (ints bins.now) (ints weights.now) (ints loads.now)) }
{
    lie_from(first, number_count(loads), bins) && loads_are(first, bins, weights, loads)
}

// Whether each number is one of so many from `first` on.
fn lie_from(first: i64, count: usize, numbers: &Elements) -> bool
    ensures { result ≡ list_all (lies_between first ((first +ℤ pos count) -ℤ pos 1))
        (ints numbers.now) }
{
    all_between(
        0,
        number_count(numbers),
        |place| lies_from(first, count, numbers, place),
    )
}

#[inline(always)]
fn lies_from(first: i64, count: usize, numbers: &Elements, place: usize) -> bool
    ensures { result ≡ lies_between first ((first +ℤ pos count) -ℤ pos 1)
        (number_at (ints numbers.now) place) }
{
    let number = number_at(numbers, place);
    first <= number && i128::from(number) <= last_from(first, count)
}

// The last of so many numbers from `first` on.
#[inline(always)]
fn last_from(first: i64, count: usize) -> i128
    ensures { result ≡ (first +ℤ pos count) -ℤ pos 1 }
{
    i128::from(first) + count as i128 - 1
}

// Whether each bin from `first` on has the load that is given for it.
fn loads_are(first: i64, bins: &Elements, weights: &Elements, loads: &Elements) -> bool
    ensures { result ≡ loads_are first (ints bins.now) (ints weights.now) (ints loads.now) }
{
    all_between(
        0,
        number_count(loads),
        |place| has_load(first, bins, weights, loads, place),
    )
}

// Whether the load at an index is that of the bin that it is given for.
fn has_load(first: i64, bins: &Elements, weights: &Elements, loads: &Elements, place: usize) -> bool
    ensures { result ≡ (number_at (ints loads.now) place =ℤ load_of (ints bins.now)
        (ints weights.now) (first +ℤ pos place)) }
{
    let bin = i128::from(first) + place as i128;
    i128::from(number_at(loads, place)) == load_of(bin, bins, weights)
}

/// The sum of the weights of what lies in a bin. No array is long enough for it to leave 128 bits.
pub fn load_of(bin: i128, bins: &Elements, weights: &Elements) -> i128
    ensures exact { result ≡ load_of (ints bins.now) (ints weights.now) bin }
{
    let mut load: i128 = 0;
    for place in 0..common_places(bins, weights) {
        if is_in(bin, bins, place) {
            load += i128::from(number_at(weights, place));
        }
    }
    load
}

#[inline(always)]
fn is_in(bin: i128, bins: &Elements, place: usize) -> bool
    ensures { result ≡ (number_at (ints bins.now) place =ℤ bin) }
{
    i128::from(number_at(bins, place)) == bin
}
