//! Sets that have no element in common.

ghost use Rattle.std.specs.Prelude.{◌≡◌, IfOk};
ghost use Rattle.std.specs.FinSet.{difference};
ghost use Rattle.fz_kernel.specs.of_meaning.Relations.{are_disjoint, is_partition};
ghost use Rattle.fz_kernel.specs.Views.{sets};

use fz_kernel::Elements;
use fz_store::{IntSet, SetError};
use std::alloc::{AllocError, Global};

/// Whether the sets have no element in common. It takes no memory.
pub fn are_disjoint(a: &IntSet, b: &IntSet) -> bool
    ensures exact { result ≡ are_disjoint a.now b.now }
{
    a.is_difference(a, b)
}

/// Whether each element of `whole` is in exactly one of the sets, and they have no other. It takes
/// one set after another from a copy of `whole`.
pub fn is_partition(alloc: Global, parts: &Elements, whole: &IntSet) -> Result<bool, AllocError>
    ensures exact { IfOk result (λ r. r ≡ is_partition (sets parts.now) whole.now) }
{
    let mut left = whole.copy(alloc)?;
    for place in 0..parts.len() {
        let part = parts.set(place);
        if !part.is_subset(&left) {
            return Ok(false);
        }
        left = without(alloc, &left, part)?;
    }
    Ok(left.len() == 0)
}

// The set without what is in the part.
fn without(alloc: Global, set: &IntSet, part: &IntSet) -> Result<IntSet, AllocError>
    ensures { IfOk result (λ s. s ≡ difference set.now part.now) }
{
    match set.minus(alloc, part) {
        Ok(rest) => Ok(rest),
        Err(SetError::Memory) => Err(AllocError),
    }
}
