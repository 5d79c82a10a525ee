//! Whether elements are all different.

ghost use Rattle.std.specs.Prelude.{◌≡◌, ◌≤◌, drop, length, IfOk};
ghost use Rattle.fz_store.specs.of_meaning.Relations.{is_among, all_different};
ghost use Rattle.fz_kernel.specs.Views.{ints};

use crate::distinct::all_different;
use crate::elements::Elements;
use crate::indices::{all_pairs, any_between};
use std::alloc::{AllocError, Global};

// Up to this many elements each pair is compared, which takes no memory.
const FEW: usize = 16;

/// Whether no two elements at different indices are equal. Only where there are many does it copy
/// them, to sort the copy.
pub fn all_elements_different(alloc: Global, elements: &Elements) -> Result<bool, AllocError>
    ensures exact { IfOk result (λ r. r ≡ all_different (ints elements.now)) }
{
    if elements.len() <= FEW {
        return Ok(pairs_differ(elements));
    }
    let mut numbers = numbers_of(alloc, elements)?;
    Ok(all_different(&mut numbers))
}

// The elements in their order.
pub fn numbers_of(alloc: Global, elements: &Elements) -> Result<Vec<i64>, AllocError>
    ensures { IfOk result (λ v. v.items ≡ ints elements.now) }
{
    let mut numbers = Vec::with_capacity(alloc, elements.len())?;
    for place in 0..elements.len() {
        numbers.push(elements.int(place))?;
    }
    Ok(numbers)
}

fn pairs_differ(elements: &Elements) -> bool
    ensures { result ≡ all_different (ints elements.now) }
{
    all_pairs(elements.len(), |one, other| {
        elements.int(one) != elements.int(other)
    })
}

// Whether the number is at this index or at a later one.
pub fn stands_from(number: i64, elements: &Elements, start: usize) -> bool
    ensures { result ≡ is_among number (drop start (ints elements.now)) }
{
    any_between(start, elements.len(), |place| elements.int(place) == number)
}
