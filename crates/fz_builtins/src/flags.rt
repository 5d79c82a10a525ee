//! The rows of sets and arrays.

ghost use Rattle.std.specs.Prelude.{◌≡◌, IfOk, Bool};
ghost use Rattle.fz_globals.specs.of_meaning.Relations.{is_convex, is_flagged, are_disjoint, is_partition, are_channelled, are_inverse_sets};
ghost use Rattle.fz_globals.specs.of_meaning.Builtins.{row_at};
ghost use Rattle.fz_globals.specs.of_meaning.declared.builtin.Builtin.TheVariants.{GecodeArraySetElementUnion, GecodeRange};
ghost use Rattle.fz_globals.specs.of_kernel.Views.{arguments_of, assigned};
ghost use Rattle.fz_builtins.specs.Readings.{int, ints, numbers, sets_of, truths};
ghost use Rattle.fz_builtins.specs.Said.{IsSaid};

use crate::said::Said;
use fz_globals::are_indices;
use fz_globals::channels::are_channelled;
use fz_globals::chosen::{are_inverse_sets, set_of_chosen, union_of_chosen};
use fz_globals::convex::is_convex;
use fz_globals::flags::is_flagged;
use fz_globals::partition::{are_disjoint, is_partition};
use fz_kernel::ArgumentView;
use fz_store::SetError;
use std::alloc::{AllocError, Global};

/// Whether the set is that of the indices whose Booleans are true.
pub(crate) fn link_set_to_booleans(view: &ArgumentView<'_, '_>) -> bool
    ensures { result ≡ is_flagged (numbers view.now 0) (truths view.now 1) (int view.now 2) }
{
    is_flagged(view.set(0), &view.elements(1), view.int(2))
}

/// Whether the set has no gap.
pub(crate) fn convex(alloc: Global, view: &ArgumentView<'_, '_>) -> Result<bool, AllocError>
    ensures { IfOk result (λ r. r ≡ is_convex (numbers view.now 0)) }
{
    is_convex(alloc, view.set(0))
}

/// Whether the sets have no common element.
pub(crate) fn disjoint(view: &ArgumentView<'_, '_>) -> bool
    ensures { result ≡ are_disjoint (numbers view.now 0) (numbers view.now 1) }
{
    are_disjoint(view.set(0), view.set(1))
}

/// Whether no two sets have a common element, and all together are the second argument.
pub(crate) fn partition_set(alloc: Global, view: &ArgumentView<'_, '_>) -> Result<bool, AllocError>
    ensures { IfOk result (λ r. r ≡ is_partition (sets_of view.now 0) (numbers view.now 1)) }
{
    is_partition(alloc, &view.elements(0), view.set(1))
}

/// Whether each set has the indices at which the list has the set's own index.
pub(crate) fn int_set_channel(view: &ArgumentView<'_, '_>) -> bool
    ensures { result ≡ are_channelled (ints view.now 0) (int view.now 1) (sets_of view.now 2)
        (int view.now 3) }
{
    are_channelled(
        &view.elements(0),
        view.int(1),
        &view.elements(2),
        view.int(3),
    )
}

/// Whether each set has the indices of the sets that have its own index.
pub(crate) fn inverse_set(view: &ArgumentView<'_, '_>) -> bool
    ensures { result ≡ are_inverse_sets (sets_of view.now 0) (int view.now 2) (sets_of view.now 1)
        (int view.now 3) }
{
    are_inverse_sets(
        &view.elements(0),
        view.int(2),
        &view.elements(1),
        view.int(3),
    )
}

/// The union of the sets whose indices are in the first argument; none where one is no index.
pub(crate) fn set_element_union<'s>(
    alloc: Global,
    view: &ArgumentView<'s, '_>,
) -> Result<Said<'s>, SetError>
    ensures { IfOk result (λ s. (first : Bool) → IsSaid (row_at GecodeArraySetElementUnion) first
        (assigned view.now) (arguments_of view.now) s) }
{
    let indices = view.set(0);
    let parts = view.elements(1);
    if !are_indices(indices, 1, parts.len()) {
        return Ok(Said::Given(2, None));
    }
    Ok(Said::Set(2, union_of_chosen(alloc, indices, &parts)?))
}

/// The set of the elements whose indices are in the third argument; none where one is no index.
pub(crate) fn range<'s>(alloc: Global, view: &ArgumentView<'s, '_>) -> Result<Said<'s>, SetError>
    ensures { IfOk result (λ s. (first : Bool) → IsSaid (row_at GecodeRange) first
        (assigned view.now) (arguments_of view.now) s) }
{
    let numbers = view.elements(0);
    let offset = view.int(1);
    let indices = view.set(2);
    if !are_indices(indices, offset, numbers.len()) {
        return Ok(Said::Given(3, None));
    }
    let chosen = set_of_chosen(alloc, &numbers, offset, indices)?;
    Ok(Said::Set(3, chosen))
}
