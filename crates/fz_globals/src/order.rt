//! Elements compared with the next ones, and with their sorted list.

ghost use Rattle.std.specs.Prelude.{◌≡◌, not, ◌||◌, int_le, int_lt, IfOk};
ghost use Rattle.fz_kernel.specs.of_meaning.Relations.{◌=ℤ◌, all_neighbours, is_same_list, is_sorted_form};
ghost use Rattle.fz_kernel.specs.Views.{ints, bools};

use crate::ordered::numbers_in_order;
use crate::testing::neighbours_pass;
use fz_kernel::Elements;
use fz_kernel::indices::all_between;
use std::alloc::{AllocError, Global};

/// Whether all numbers are equal.
pub fn all_equal(elements: &Elements) -> bool
    ensures exact { result ≡ all_neighbours ◌=ℤ◌ (ints elements.now) }
{
    neighbours_pass(elements, |x, y| x == y)
}

/// Whether no number is less than the one before it.
pub fn is_increasing(elements: &Elements) -> bool
    ensures exact { result ≡ all_neighbours int_le (ints elements.now) }
{
    neighbours_pass(elements, |x, y| x <= y)
}

/// Whether each number but the first is greater than the one before it.
pub fn is_strictly_increasing(elements: &Elements) -> bool
    ensures exact { result ≡ all_neighbours int_lt (ints elements.now) }
{
    neighbours_pass(elements, |x, y| x < y)
}

/// Whether no number is greater than the one before it.
pub fn is_decreasing(elements: &Elements) -> bool
    ensures exact { result ≡ all_neighbours (λ x y. int_le y x) (ints elements.now) }
{
    neighbours_pass(elements, |x, y| x >= y)
}

/// Whether no false comes after a true.
pub fn truths_increase(elements: &Elements) -> bool
    ensures exact { result ≡ all_neighbours (λ a b. not a || b) (bools elements.now) }
{
    all_between(1, elements.len(), |place| {
        implies(elements.truth(place - 1), elements.truth(place))
    })
}

/// Whether no true comes after a false.
pub fn truths_decrease(elements: &Elements) -> bool
    ensures exact { result ≡ all_neighbours (λ a b. not b || a) (bools elements.now) }
{
    all_between(1, elements.len(), |place| {
        implies(elements.truth(place), elements.truth(place - 1))
    })
}

pub(crate) fn implies(a: bool, b: bool) -> bool
    ensures { result ≡ (not a || b) }
{
    !a || b
}

/// Whether the second array is the first in ascending order.
pub fn is_sorted_form(
    alloc: Global,
    elements: &Elements,
    ascending: &Elements,
) -> Result<bool, AllocError>
    ensures exact { IfOk result (λ r. r ≡ is_sorted_form (ints elements.now) (ints ascending.now)) }
{
    let numbers = numbers_in_order(alloc, elements)?;
    Ok(are_elements(&numbers, ascending))
}

// Whether the elements are these numbers, in this order.
fn are_elements(numbers: &[i64], elements: &Elements) -> bool
    ensures { result ≡ is_same_list ◌=ℤ◌ numbers.now (ints elements.now) }
{
    if numbers.len() != elements.len() {
        return false;
    }
    all_between(0, numbers.len(), |place| {
        numbers[place] == elements.int(place)
    })
}
