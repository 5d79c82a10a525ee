//! How many elements have a value or lie in a set, and how many different values there are.

ghost use Rattle.std.specs.Prelude.{◌≡◌, length, pos, IfOk};
ghost use Rattle.std.specs.List.{filter, list_any};
ghost use Rattle.std.specs.FinSet as set;
ghost use Rattle.fz_kernel.specs.of_meaning.Relations.{◌=ℤ◌, ◌=ᴮ◌, all_different, is_among, count_of, count_in, is_nonzero, values_of};
ghost use Rattle.fz_kernel.specs.Views.{ints, bools};

use crate::ordered::{numbers_in_order, values_in_order};
use fz_kernel::Elements;
use fz_kernel::arrays::stands_from;
use fz_kernel::distinct::all_different;
use fz_kernel::indices::any_between;
use fz_store::IntSet;
use std::alloc::{AllocError, Global};

/// The number of indices with the value.
pub fn count_of(elements: &Elements, value: i64) -> i128
    ensures exact { result ≡ count_of (ints elements.now) value }
{
    places_of(elements, value) as i128
}

fn places_of(elements: &Elements, value: i64) -> usize
    ensures { result ≡ length (filter (λ x. x =ℤ value) (ints elements.now)) }
{
    let mut count: usize = 0;
    for place in 0..elements.len() {
        if elements.int(place) == value {
            count += 1;
        }
    }
    count
}

/// The number of indices with an element of the set.
pub fn count_in(elements: &Elements, values: &IntSet) -> i128
    ensures exact { result ≡ count_in (ints elements.now) values.now }
{
    places_in(elements, values) as i128
}

fn places_in(elements: &Elements, values: &IntSet) -> usize
    ensures { result ≡ length (filter (λ x. set.contains values.now x) (ints elements.now)) }
{
    let mut count: usize = 0;
    for place in 0..elements.len() {
        if values.contains(elements.int(place)) {
            count += 1;
        }
    }
    count
}

/// Whether the number is an element.
pub fn is_listed(number: i64, elements: &Elements) -> bool
    ensures exact { result ≡ is_among number (ints elements.now) }
{
    stands_from(number, elements, 0)
}

/// Whether the Boolean is an element.
pub fn is_truth_listed(truth: bool, elements: &Elements) -> bool
    ensures exact { result ≡ list_any (λ x. x =ᴮ truth) (bools elements.now) }
{
    any_between(0, elements.len(), |place| elements.truth(place) == truth)
}

/// Whether no two elements at different indices are equal, unless they are 0.
pub fn nonzero_are_different(alloc: Global, elements: &Elements) -> Result<bool, AllocError>
    ensures exact { IfOk result (λ r. r ≡ all_different (filter is_nonzero (ints elements.now))) }
{
    let mut numbers = nonzero_numbers(alloc, elements)?;
    Ok(all_different(&mut numbers))
}

fn nonzero_numbers(alloc: Global, elements: &Elements) -> Result<Vec<i64>, AllocError>
    ensures { IfOk result (λ v. v.items ≡ filter is_nonzero (ints elements.now)) }
{
    let mut numbers = Vec::with_capacity(alloc, elements.len())?;
    for place in 0..elements.len() {
        let number = elements.int(place);
        if number != 0 {
            numbers.push(number)?;
        }
    }
    Ok(numbers)
}

/// How many different values there are.
pub fn number_of_values(alloc: Global, elements: &Elements) -> Result<i128, AllocError>
    ensures exact { IfOk result (λ n. n ≡ pos (length (values_of (ints elements.now)))) }
{
    let numbers = numbers_in_order(alloc, elements)?;
    Ok(values_in_order(&numbers) as i128)
}
