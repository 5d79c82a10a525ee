//! Sets that have no gap.

ghost use Rattle.std.specs.Prelude.{◌≡◌, IfOk};
ghost use Rattle.fz_kernel.specs.of_meaning.Relations.{is_convex};

use fz_store::IntSet;
use std::alloc::{AllocError, Global};

/// Whether all numbers between any two elements are elements.
pub fn is_convex(alloc: Global, set: &IntSet) -> Result<bool, AllocError>
    ensures exact { IfOk result (λ r. r ≡ is_convex set.now) }
{
    let ranges = set.ranges(alloc)?;
    Ok(ranges.len() <= 1)
}
