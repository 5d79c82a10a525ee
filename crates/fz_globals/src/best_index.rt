//! The indices of the greatest and of the least element.

ghost use Rattle.std.specs.Prelude.{◌≡◌, ℤ, false, int_le, map, IfSome, IfNone};
ghost use Rattle.fz_kernel.specs.of_meaning.Relations.{◌=ℤ◌, as_number, index_from, is_index_of_best};
ghost use Rattle.fz_kernel.specs.Views.{bools, ints};

use crate::indices::index_at;
use fz_kernel::Elements;
use fz_kernel::arrays::{any_true, maximum, minimum};

/// The index, counted from `first`, of the first greatest element; none where there is no element.
pub fn index_of_maximum(elements: &Elements, first: i64) -> Option<i128>
    ensures exact { IfSome result (λ i. (j : ℤ)
        → is_index_of_best (λ x m. int_le x m) (ints elements.now) first j ≡ (j =ℤ i)) }
    ensures none { IfNone result ((j : ℤ)
        → is_index_of_best (λ x m. int_le x m) (ints elements.now) first j ≡ false) }
{
    match maximum(elements) {
        Some(greatest) => index_of(greatest, elements, first),
        None => None,
    }
}

/// The index, counted from `first`, of the first least element; none where there is no element.
pub fn index_of_minimum(elements: &Elements, first: i64) -> Option<i128>
    ensures exact { IfSome result (λ i. (j : ℤ)
        → is_index_of_best (λ x m. int_le m x) (ints elements.now) first j ≡ (j =ℤ i)) }
    ensures none { IfNone result ((j : ℤ)
        → is_index_of_best (λ x m. int_le m x) (ints elements.now) first j ≡ false) }
{
    match minimum(elements) {
        Some(least) => index_of(least, elements, first),
        None => None,
    }
}

/// The index, counted from `first`, of the first greatest Boolean, where true is greater than
/// false; none where there is no element.
pub fn index_of_greatest_truth(elements: &Elements, first: i64) -> Option<i128>
    ensures exact { IfSome result (λ i. (j : ℤ) → is_index_of_best (λ x m. int_le x m)
        (map as_number (bools elements.now)) first j ≡ (j =ℤ i)) }
    ensures none { IfNone result ((j : ℤ) → is_index_of_best (λ x m. int_le x m)
        (map as_number (bools elements.now)) first j ≡ false) }
{
    if elements.len() == 0 {
        return None;
    }
    index_of_truth(any_true(elements), elements, first)
}

// The index of the first element that is the Boolean.
fn index_of_truth(truth: bool, elements: &Elements, first: i64) -> Option<i128>
    ensures { result ≡ index_from first (map as_number (bools elements.now)) (as_number truth) }
{
    for place in 0..elements.len() {
        if elements.truth(place) == truth {
            return Some(index_at(first, place));
        }
    }
    None
}

// The index of the first element that is the number.
fn index_of(number: i64, elements: &Elements, first: i64) -> Option<i128>
    ensures { result ≡ index_from first (ints elements.now) number }
{
    for place in 0..elements.len() {
        if elements.int(place) == number {
            return Some(index_at(first, place));
        }
    }
    None
}
