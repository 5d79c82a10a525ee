//! The rows of order.

ghost use Rattle.std.specs.Prelude.{◌≡◌, not, pos, int_le, int_lt, ◌&&◌, ◌||◌, IfOk};
ghost use Rattle.fz_globals.specs.of_meaning.Relations.{◌=ℤ◌, ◌=ᴮ◌, all_neighbours, is_sorted_form, is_before, precedes, precedes_in_sets, rises_by_one};
ghost use Rattle.fz_builtins.specs.Readings.{int, ints, sets_of, truths};

use fz_globals::order::{
    all_equal, is_decreasing, is_increasing, is_sorted_form, is_strictly_increasing,
    truths_decrease, truths_increase,
};
use fz_globals::precedence::{precede_in_chain, precedes, precedes_in_sets, rises_by_one};
use fz_kernel::ArgumentView;
use fz_scheduling::lexical::{bools_are_before, ints_are_before};
use std::alloc::{AllocError, Global};

/// Whether all elements are equal.
pub(crate) fn all_equal_int(view: &ArgumentView<'_, '_>) -> bool
    ensures { result ≡ all_neighbours ◌=ℤ◌ (ints view.now 0) }
{
    all_equal(&view.elements(0))
}

/// Whether no element is less than the one before.
pub(crate) fn increasing_int(view: &ArgumentView<'_, '_>) -> bool
    ensures { result ≡ all_neighbours int_le (ints view.now 0) }
{
    is_increasing(&view.elements(0))
}

/// Whether each element is greater than the one before.
pub(crate) fn strictly_increasing_int(view: &ArgumentView<'_, '_>) -> bool
    ensures { result ≡ all_neighbours int_lt (ints view.now 0) }
{
    is_strictly_increasing(&view.elements(0))
}

/// Whether no element is greater than the one before.
pub(crate) fn decreasing_int(view: &ArgumentView<'_, '_>) -> bool
    ensures { result ≡ all_neighbours (λ x y. int_le y x) (ints view.now 0) }
{
    is_decreasing(&view.elements(0))
}

/// Whether no false follows a true.
pub(crate) fn increasing_bool(view: &ArgumentView<'_, '_>) -> bool
    ensures { result ≡ all_neighbours (λ x y. not x || y) (truths view.now 0) }
{
    truths_increase(&view.elements(0))
}

/// Whether no true follows a false.
pub(crate) fn decreasing_bool(view: &ArgumentView<'_, '_>) -> bool
    ensures { result ≡ all_neighbours (λ x y. not y || x) (truths view.now 0) }
{
    truths_decrease(&view.elements(0))
}

/// Whether the second list is the first in ascending order.
pub(crate) fn sorted(alloc: Global, view: &ArgumentView<'_, '_>) -> Result<bool, AllocError>
    ensures { IfOk result (λ r. r ≡ is_sorted_form (ints view.now 0) (ints view.now 1)) }
{
    is_sorted_form(alloc, &view.elements(0), &view.elements(1))
}

/// Whether the first list comes before the second in lexicographic order.
pub(crate) fn lex_less_int(view: &ArgumentView<'_, '_>) -> bool
    ensures { result ≡ is_before int_lt ◌=ℤ◌ (ints view.now 0) (ints view.now 1) }
{
    ints_are_before(&view.elements(0), &view.elements(1))
}

/// Whether the first list comes before the second, or they are equal.
pub(crate) fn lex_lesseq_int(view: &ArgumentView<'_, '_>) -> bool
    ensures { result ≡ not (is_before int_lt ◌=ℤ◌ (ints view.now 1) (ints view.now 0)) }
{
    !ints_are_before(&view.elements(1), &view.elements(0))
}

/// Whether the first list comes before the second, where false comes before true.
pub(crate) fn lex_less_bool(view: &ArgumentView<'_, '_>) -> bool
    ensures { result ≡ is_before (λ x y. not x && y) ◌=ᴮ◌ (truths view.now 0) (truths view.now 1) }
{
    bools_are_before(&view.elements(0), &view.elements(1))
}

/// Whether the first list comes before the second, or they are equal.
pub(crate) fn lex_lesseq_bool(view: &ArgumentView<'_, '_>) -> bool
    ensures { result ≡ not (is_before (λ x y. not x && y) ◌=ᴮ◌ (truths view.now 1)
        (truths view.now 0)) }
{
    !bools_are_before(&view.elements(1), &view.elements(0))
}

/// Whether the second value comes only after an element that is the first one.
pub(crate) fn value_precede(view: &ArgumentView<'_, '_>) -> bool
    ensures { result ≡ precedes (int view.now 0) (int view.now 1) (ints view.now 2) }
{
    precedes(view.int(0), view.int(1), &view.elements(2))
}

/// Whether the third value comes only after an element of the list that is the second one.
pub(crate) fn precede(view: &ArgumentView<'_, '_>) -> bool
    ensures { result ≡ precedes (int view.now 1) (int view.now 2) (ints view.now 0) }
{
    precedes(view.int(1), view.int(2), &view.elements(0))
}

/// Whether a set with the third value and without the second comes only after one with the second
/// and without the third.
pub(crate) fn precede_set(view: &ArgumentView<'_, '_>) -> bool
    ensures { result ≡ precedes_in_sets (int view.now 1) (int view.now 2) (sets_of view.now 0) }
{
    precedes_in_sets(view.int(1), view.int(2), &view.elements(0))
}

/// Whether of each two neighbours in a list of values the second comes only after the first.
pub(crate) fn value_precede_chain(
    alloc: Global,
    view: &ArgumentView<'_, '_>,
) -> Result<bool, AllocError>
    ensures { IfOk result (λ r. r ≡ all_neighbours (λ s t. precedes s t (ints view.now 1))
        (ints view.now 0)) }
{
    precede_in_chain(alloc, &view.elements(0), &view.elements(1))
}

/// Whether each element is greater by at most one than the greatest before it, or than 0.
pub(crate) fn seq_precede_chain(view: &ArgumentView<'_, '_>) -> bool
    ensures { result ≡ rises_by_one (pos 0) (ints view.now 0) }
{
    rises_by_one(&view.elements(0))
}
