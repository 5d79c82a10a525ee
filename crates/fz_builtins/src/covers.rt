//! The rows that count the values of a cover (`fzn_global_cardinality` and the like).

ghost use Rattle.std.specs.Prelude.{◌≡◌, ◌&&◌, IfOk};
ghost use Rattle.fz_globals.specs.of_meaning.Relations.{counts_are, counts_lie, is_closed};
ghost use Rattle.fz_builtins.specs.Readings.{ints};

use fz_globals::cover::{counts_are, counts_lie, is_closed};
use fz_kernel::ArgumentView;
use std::alloc::{AllocError, Global};

/// Whether each value of the cover is an element as often as its number says.
pub(crate) fn cardinality(alloc: Global, view: &ArgumentView<'_, '_>) -> Result<bool, AllocError>
    ensures { IfOk result (λ r. r ≡ counts_are (ints view.now 0) (ints view.now 1)
        (ints view.now 2)) }
{
    counts_are(
        alloc,
        &view.elements(0),
        &view.elements(1),
        &view.elements(2),
    )
}

/// Whether each value of the cover is an element as often as its number says, and there is no
/// other.
pub(crate) fn cardinality_closed(
    alloc: Global,
    view: &ArgumentView<'_, '_>,
) -> Result<bool, AllocError>
    ensures { IfOk result (λ r. r ≡ (counts_are (ints view.now 0) (ints view.now 1)
        (ints view.now 2) && is_closed (ints view.now 0) (ints view.now 1))) }
{
    Ok(cardinality(alloc, view)? && closed(alloc, view)?)
}

/// Whether each value of the cover is an element as often as its bounds let it be.
pub(crate) fn cardinality_between(
    alloc: Global,
    view: &ArgumentView<'_, '_>,
) -> Result<bool, AllocError>
    ensures { IfOk result (λ r. r ≡ counts_lie (ints view.now 0) (ints view.now 1) (ints view.now 2)
        (ints view.now 3)) }
{
    let (least, most) = (&view.elements(2), &view.elements(3));
    counts_lie(alloc, &view.elements(0), &view.elements(1), least, most)
}

/// Whether each value of the cover is an element as often as its bounds let it, and there is no
/// other.
pub(crate) fn cardinality_between_closed(
    alloc: Global,
    view: &ArgumentView<'_, '_>,
) -> Result<bool, AllocError>
    ensures { IfOk result (λ r. r ≡ (counts_lie (ints view.now 0) (ints view.now 1)
        (ints view.now 2) (ints view.now 3) && is_closed (ints view.now 0) (ints view.now 1))) }
{
    Ok(cardinality_between(alloc, view)? && closed(alloc, view)?)
}

/// Whether each value is an element of the third argument as often as its number in the first says.
pub(crate) fn distribute(alloc: Global, view: &ArgumentView<'_, '_>) -> Result<bool, AllocError>
    ensures { IfOk result (λ r. r ≡ counts_are (ints view.now 2) (ints view.now 1)
        (ints view.now 0)) }
{
    counts_are(
        alloc,
        &view.elements(2),
        &view.elements(1),
        &view.elements(0),
    )
}

/// Whether each element is in the cover.
fn closed(alloc: Global, view: &ArgumentView<'_, '_>) -> Result<bool, AllocError>
    ensures { IfOk result (λ r. r ≡ is_closed (ints view.now 0) (ints view.now 1)) }
{
    is_closed(alloc, &view.elements(0), &view.elements(1))
}
