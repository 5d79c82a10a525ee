//! The rows over arrays, but for those whose products are added in 128 bits.

ghost use Rattle.std.specs.Prelude.{◌≡◌, ℤ, not, ◌&&◌, ◌||◌, length, int_le, IfOk, option_map};
ghost use Rattle.std.specs.List.{list_all, list_any, filter};
ghost use Rattle.fz_globals.specs.of_meaning.Relations.{◌=ℤ◌, all_different, element_at, is_among, is_odd, total, where_true};
ghost use Rattle.fz_builtins.specs.Readings.{int, ints, sets_of, truths};
ghost use Rattle.fz_builtins.specs.Said.{is_result};

use fz_kernel::ArgumentView;
use fz_kernel::arrays::{
    all_elements_different, all_true, any_false, any_true, maximum, minimum, odd_number_true,
    sum_where_true,
};
use fz_store::IntSet;
use std::alloc::{AllocError, Global};

/// The element at the index.
pub(crate) fn int_element(view: &ArgumentView<'_, '_>) -> Option<i64>
    ensures { result ≡ element_at (ints view.now 1) (int view.now 0) }
{
    fz_kernel::arrays::int_element(view.int(0), &view.elements(1))
}

/// The greatest element.
pub(crate) fn int_maximum(view: &ArgumentView<'_, '_>) -> Option<i64>
    ensures { (a : ℤ) → (is_among a (ints view.now 1)
        && list_all (λ x. int_le x a) (ints view.now 1)) ≡ is_result ◌=ℤ◌ result a }
{
    maximum(&view.elements(1))
}

/// The least element.
pub(crate) fn int_minimum(view: &ArgumentView<'_, '_>) -> Option<i64>
    ensures { (a : ℤ) → (is_among a (ints view.now 1)
        && list_all (λ x. int_le a x) (ints view.now 1)) ≡ is_result ◌=ℤ◌ result a }
{
    minimum(&view.elements(1))
}

/// The number in 128 bits.
#[inline(always)]
pub(crate) fn wide(number: Option<i64>) -> Option<i128>
    ensures { result ≡ number }
{
    match number {
        Some(number) => Some(i128::from(number)),
        None => None,
    }
}

/// Whether no two elements are equal.
pub(crate) fn int_all_different(
    alloc: Global,
    view: &ArgumentView<'_, '_>,
) -> Result<bool, AllocError>
    ensures { IfOk result (λ r. r ≡ all_different (ints view.now 0)) }
{
    all_elements_different(alloc, &view.elements(0))
}

/// Whether all elements are true.
pub(crate) fn bool_all(view: &ArgumentView<'_, '_>) -> bool
    ensures { result ≡ list_all (λ x. x) (truths view.now 0) }
{
    all_true(&view.elements(0))
}

/// Whether an element is true.
pub(crate) fn bool_any(view: &ArgumentView<'_, '_>) -> bool
    ensures { result ≡ list_any (λ x. x) (truths view.now 0) }
{
    any_true(&view.elements(0))
}

/// Whether an odd number of elements is true.
pub(crate) fn bool_odd(view: &ArgumentView<'_, '_>) -> bool
    ensures { result ≡ is_odd (length (filter (λ x. x) (truths view.now 0))) }
{
    odd_number_true(&view.elements(0))
}

/// The element at the index.
pub(crate) fn bool_element(view: &ArgumentView<'_, '_>) -> Option<bool>
    ensures { result ≡ element_at (truths view.now 1) (int view.now 0) }
{
    fz_kernel::arrays::bool_element(view.int(0), &view.elements(1))
}

/// Whether an element of the first is true, or one of the second false.
#[inline(always)]
pub(crate) fn bool_clause(view: &ArgumentView<'_, '_>) -> bool
    ensures { result ≡ (list_any (λ x. x) (truths view.now 0)
        || list_any (λ x. not x) (truths view.now 1)) }
{
    any_true(&view.elements(0)) || any_false(&view.elements(1))
}

/// The sum of the numbers whose Booleans are true.
pub(crate) fn bool_sum(view: &ArgumentView<'_, '_>) -> i128
    ensures { result ≡ total (where_true (ints view.now 0) (truths view.now 1)) }
{
    sum_where_true(&view.elements(0), &view.elements(1))
}

/// The element at the index.
pub(crate) fn set_element<'s>(view: &ArgumentView<'s, '_>) -> Option<&'s IntSet>
    ensures { option_map (λ s. s.now) result ≡ element_at (sets_of view.now 1) (int view.now 0) }
{
    fz_kernel::arrays::set_element(view.int(0), &view.elements(1))
}
