//! The first indices of numbers in a list.

ghost use Rattle.std.specs.Prelude.{◌≡◌, ◌+◌, ◌<◌, ◌≤◌, ◌+ℤ◌, ◌<ℤ◌, ◌≤ℤ◌, ℕ, ℤ, List, pos, get_or, length, option_map, IfNone, IfOk, IfSome};
ghost use Rattle.std.specs.Ordering.{int_cmp};
ghost use Rattle.std.specs.List.Sorted.{IsSorted};
ghost use Rattle.fz_kernel.specs.of_meaning.Relations.{index_from};
ghost use Rattle.fz_kernel.specs.Views.{ints};
ghost use Rattle.fz_globals.specs.Keys.{key, AreKeys};

use fz_kernel::Elements;
use std::alloc::{AllocError, Global};

/// The elements with their indices, each pair as one number (a key), in ascending order.
pub(crate) fn keys_in_order(alloc: Global, elements: &Elements) -> Result<Vec<i128>, AllocError>
    ensures keys { IfOk result (λ v. AreKeys (ints elements.now) v.items) }
    ensures sorted { IfOk result (λ v. IsSorted int_cmp v.items) }
{
    let mut keys = keys_of(alloc, elements)?;
    keys.sort_unstable();
    Ok(keys)
}

/// The first index of a number among those whose keys are given.
pub(crate) fn first_place(keys: &[i128], number: i64) -> Option<usize>
    requires { IsSorted int_cmp keys.now }
    ensures { (xs : List ℤ) → AreKeys xs keys.now
        → option_map pos result ≡ index_from (pos 0) xs number }
{
    let place = place_up_from(keys, key(number, 0));
    if place < keys.len() {
        place_of_pair(keys[place], number)
    } else {
        None
    }
}

// The index of a number, where it is the one of this key.
fn place_of_pair(pair: i128, number: i64) -> Option<usize>
    ensures some { IfSome result (λ p. pair ≡ key number p) }
    ensures short { IfSome result (λ p. p < 18446744073709551616) }
    ensures none { IfNone result ((p : ℕ) → p < 18446744073709551616 → pair ≡ key number p → ⊥) }
{
    if pair < key(number, 0) || pair > key(number, usize::MAX) {
        return None;
    }
    Some((pair - key(number, 0)) as usize)
}

fn keys_of(alloc: Global, elements: &Elements) -> Result<Vec<i128>, AllocError>
    ensures { IfOk result (λ v. AreKeys (ints elements.now) v.items) }
{
    let mut keys = Vec::with_capacity(alloc, elements.len())?;
    for place in 0..elements.len() {
        keys.push(key(elements.int(place), place))?;
    }
    Ok(keys)
}

// A number and an index as one key: keys are ordered by the numbers, and those of equal numbers by
// the indices.
fn key(number: i64, place: usize) -> i128
    ensures { result ≡ key number place }
{
    i128::from(number) * 18446744073709551616 + place as i128
}

// How many of the numbers, which are in order, are below `low`.
fn place_up_from(sorted: &[i128], low: i128) -> usize
    requires { IsSorted int_cmp sorted.now }
    ensures within { result ≤ length sorted.now }
    ensures below { (k : ℕ) → k < result → get_or sorted.now k (pos 0) <ℤ low }
    ensures from { (k : ℕ) → result ≤ k → k < length sorted.now
        → low ≤ℤ get_or sorted.now k (pos 0) }
{
    let mut start = 0;
    let mut end = sorted.len();
    while start < end {
        let middle = start + (end - start) / 2;
        if sorted[middle] < low {
            start = middle + 1;
        } else {
            end = middle;
        }
    }
    start
}
