//! The rows that count.

ghost use Rattle.std.specs.Prelude.{◌≡◌, pos, length, IfOk};
ghost use Rattle.std.specs.List.{list_any, filter};
ghost use Rattle.fz_globals.specs.of_meaning.Relations.{◌=ᴮ◌, all_different, is_among, count_of, count_in, values_of, is_nonzero};
ghost use Rattle.fz_builtins.specs.Readings.{int, ints, numbers, truth, truths};

use fz_globals::counts;
use fz_globals::counts::{count_in, count_of, is_listed, is_truth_listed, nonzero_are_different};
use fz_kernel::ArgumentView;
use std::alloc::{AllocError, Global};

/// How often the number at one index is an element of the array at another.
pub(crate) fn count(view: &ArgumentView<'_, '_>, array: usize, number: usize) -> i128
    ensures { result ≡ count_of (ints view.now array) (int view.now number) }
{
    count_of(&view.elements(array), view.int(number))
}

/// The number of elements that are in the set.
pub(crate) fn among(view: &ArgumentView<'_, '_>) -> i128
    ensures { result ≡ count_in (ints view.now 1) (numbers view.now 2) }
{
    count_in(&view.elements(1), view.set(2))
}

/// The number of different elements.
pub(crate) fn number_of_values(
    alloc: Global,
    view: &ArgumentView<'_, '_>,
) -> Result<i128, AllocError>
    ensures { IfOk result (λ n. n ≡ pos (length (values_of (ints view.now 1)))) }
{
    counts::number_of_values(alloc, &view.elements(1))
}

/// Whether no two elements that aren't 0 are equal.
pub(crate) fn different_but_zeros(
    alloc: Global,
    view: &ArgumentView<'_, '_>,
) -> Result<bool, AllocError>
    ensures { IfOk result (λ r. r ≡ all_different (filter is_nonzero (ints view.now 0))) }
{
    nonzero_are_different(alloc, &view.elements(0))
}

/// Whether the number is an element.
pub(crate) fn member_int(view: &ArgumentView<'_, '_>) -> bool
    ensures { result ≡ is_among (int view.now 1) (ints view.now 0) }
{
    is_listed(view.int(1), &view.elements(0))
}

/// Whether the Boolean is an element.
pub(crate) fn member_bool(view: &ArgumentView<'_, '_>) -> bool
    ensures { result ≡ list_any (λ x. x =ᴮ truth view.now 1) (truths view.now 0) }
{
    is_truth_listed(view.truth(1), &view.elements(0))
}
