//! The rows of tasks, boxes, bins and weights.

ghost use Rattle.std.specs.Prelude.{◌≡◌, ℤ, IfOk, pos, length, int_le, ◌&&◌, ◌+ℤ◌, ◌-ℤ◌};
ghost use Rattle.std.specs.List.{list_all, zip};
ghost use Rattle.fz_globals.specs.of_meaning.Relations.{◌=ℤ◌, all_pairs, are_apart, is_cumulative, is_disjunctive, is_strictly_disjunctive, is_weight_of, marks, boxes, overlap_nowhere, overlap_in_no_area, load_of, lies_between, loads_are, slides_between};
ghost use Rattle.fz_builtins.specs.Readings.{int, ints, numbers};
ghost use Rattle.fz_builtins.specs.Said.{is_result};

use fz_kernel::ArgumentView;
use fz_scheduling::bins::{loads_are_given, loads_are_within};
use fz_scheduling::boxes::{overlap_in_no_area, overlap_nowhere};
use fz_scheduling::slides::slides_between;
use fz_scheduling::tasks::{are_apart, is_cumulative, is_disjunctive, is_strictly_disjunctive};
use fz_scheduling::weights::weight_of;
use fz_store::SetError;
use std::alloc::Global;

/// Whether the tasks that run at one time never use more than there is.
pub(crate) fn cumulative(view: &ArgumentView<'_, '_>) -> bool
    ensures { result ≡ is_cumulative
        (zip (zip (ints view.now 0) (ints view.now 1)) (ints view.now 2)) (int view.now 3) }
{
    let uses = &view.elements(2);
    is_cumulative(&view.elements(0), &view.elements(1), uses, view.int(3))
}

/// Whether no two tasks that last run at one time.
pub(crate) fn disjunctive(view: &ArgumentView<'_, '_>) -> bool
    ensures { result ≡ is_disjunctive (zip (ints view.now 0) (ints view.now 1)) }
{
    is_disjunctive(&view.elements(0), &view.elements(1))
}

/// Whether no two tasks run at one time, not even one that doesn't last.
pub(crate) fn disjunctive_strict(view: &ArgumentView<'_, '_>) -> bool
    ensures { result ≡ is_strictly_disjunctive (zip (ints view.now 0) (ints view.now 1)) }
{
    is_strictly_disjunctive(&view.elements(0), &view.elements(1))
}

/// Whether of each two tasks one ends before or when the other starts.
pub(crate) fn schedule_unary(view: &ArgumentView<'_, '_>) -> bool
    ensures { result ≡ all_pairs are_apart (zip (ints view.now 0) (ints view.now 1)) }
{
    are_apart(&view.elements(0), &view.elements(1))
}

/// Whether no two boxes overlap.
pub(crate) fn diffn(view: &ArgumentView<'_, '_>) -> bool
    ensures { result ≡ overlap_nowhere
        (boxes (ints view.now 0) (ints view.now 1) (ints view.now 2) (ints view.now 3)) }
{
    let (width, height) = (&view.elements(2), &view.elements(3));
    overlap_nowhere(&view.elements(0), &view.elements(1), width, height)
}

/// Whether no two boxes overlap, with the arguments in this order: the starts and the lengths along
/// one axis, then those along the other.
pub(crate) fn nooverlap(view: &ArgumentView<'_, '_>) -> bool
    ensures { result ≡ overlap_nowhere
        (boxes (ints view.now 0) (ints view.now 2) (ints view.now 1) (ints view.now 3)) }
{
    let (width, height) = (&view.elements(1), &view.elements(3));
    overlap_nowhere(&view.elements(0), &view.elements(2), width, height)
}

/// Whether no two boxes that have an area overlap.
pub(crate) fn diffn_nonstrict(view: &ArgumentView<'_, '_>) -> bool
    ensures { result ≡ overlap_in_no_area
        (boxes (ints view.now 0) (ints view.now 1) (ints view.now 2) (ints view.now 3)) }
{
    let (width, height) = (&view.elements(2), &view.elements(3));
    overlap_in_no_area(&view.elements(0), &view.elements(1), width, height)
}

/// Whether no bin holds more than its capacity.
pub(crate) fn bin_packing(view: &ArgumentView<'_, '_>) -> bool
    ensures { result ≡ list_all (λ v. int_le (load_of (ints view.now 1) (ints view.now 2) v)
        (int view.now 0)) (ints view.now 1) }
{
    loads_are_within(&view.elements(1), &view.elements(2), view.int(0))
}

/// Whether each bin has the load that is given for it, and there is no other bin.
pub(crate) fn bin_packing_load(view: &ArgumentView<'_, '_>) -> bool
    ensures { result ≡ (list_all (lies_between (int view.now 3)
        ((int view.now 3 +ℤ pos (length (ints view.now 0))) -ℤ pos 1)) (ints view.now 1)
        && loads_are (int view.now 3) (ints view.now 1) (ints view.now 2) (ints view.now 0)) }
{
    let loads = &view.elements(0);
    loads_are_given(view.int(3), &view.elements(1), &view.elements(2), loads)
}

/// Whether each run of as many neighbours as the third argument says has a sum within the bounds.
pub(crate) fn sliding_sum(view: &ArgumentView<'_, '_>) -> bool
    ensures { result ≡ slides_between (int view.now 0) (int view.now 1) (int view.now 2)
        (ints view.now 3) }
{
    let (low, high, width) = (view.int(0), view.int(1), view.int(2));
    slides_between(low, high, width, None, &view.elements(3))
}

/// Whether of each run of as many neighbours as the third argument says a number within the bounds
/// is in the set.
pub(crate) fn among_seq(view: &ArgumentView<'_, '_>) -> bool
    ensures { result ≡ slides_between (int view.now 3) (int view.now 4) (int view.now 2)
        (marks (numbers view.now 1) (ints view.now 0)) }
{
    let (low, high, width) = (view.int(3), view.int(4), view.int(2));
    slides_between(low, high, width, Some(view.set(1)), &view.elements(0))
}

/// The weight of the set, where it has only things, and no two things are equal.
pub(crate) fn set_weights(
    alloc: Global,
    view: &ArgumentView<'_, '_>,
) -> Result<Option<i128>, SetError>
    ensures { IfOk result (λ o. (n : ℤ) → is_weight_of (ints view.now 0) (ints view.now 1)
        (numbers view.now 2) n ≡ is_result ◌=ℤ◌ o n) }
{
    let (things, weights) = (&view.elements(0), &view.elements(1));
    weight_of(alloc, things, weights, view.set(2))
}
