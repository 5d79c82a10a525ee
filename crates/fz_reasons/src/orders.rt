//! Lists that come in another order than a row asks.

ghost use Rattle.std.specs.Prelude.{◌≡◌, ◌-ℤ◌, pos, true, int_lt, IfOk, IfSome};
ghost use Rattle.fz_builtins.specs.of_kernel.Views.{arguments_of, assigned, ints, sets};
ghost use Rattle.fz_reasons.specs.Elements.{IsDifference, IsEarly, IsEarlyInChain, IsEarlySet, IsUnsorted, agree, comes_before, differ};
ghost use Rattle.fz_reasons.specs.Reasons.{numbers_at};

use crate::readings::numbers_in;
use crate::reason::{Difference, Early, ElementKind};
use fz_globals::numbers_in_order;
use fz_globals::precedence::has_only;
use fz_kernel::arrays::numbers_of;
use fz_kernel::{ArgumentView, Elements};
use std::alloc::{AllocError, Global};

/// The first index at which the first two arguments differ.
pub(crate) fn difference_of(
    alloc: Global,
    kind: ElementKind,
    view: &ArgumentView<'_, '_>,
) -> Result<Difference, AllocError>
    ensures { IfOk result (IsDifference
        (numbers_at kind (assigned view.now) (arguments_of view.now) 0)
        (numbers_at kind (assigned view.now) (arguments_of view.now) 1)) }
{
    let one = numbers_in(alloc, kind, &view.elements(0))?;
    let other = numbers_in(alloc, kind, &view.elements(1))?;
    Ok(difference(&one, &other))
}

/// The first index at which the first list in ascending order and the second differ.
pub(crate) fn unsorted(
    alloc: Global,
    elements: &Elements,
    ascending: &Elements,
) -> Result<Option<Difference>, AllocError>
    ensures { IfOk result (λ o. IfSome o (IsUnsorted (ints elements.now) (ints ascending.now))) }
{
    let sorted = numbers_in_order(alloc, elements)?;
    let found = difference(&sorted, &numbers_of(alloc, ascending)?);
    if differ(found.left, found.right) {
        Ok(Some(found))
    } else {
        Ok(None)
    }
}

/// The first index at which two lists differ, or the end of both.
fn difference(one: &[i64], other: &[i64]) -> Difference
    ensures { IsDifference one.now other.now result }
{
    let mut place = 0;
    while place < one.len() && place < other.len() && one[place] == other[place] {
        place += 1;
    }
    Difference {
        place,
        left: one.get(place).copied(),
        right: other.get(place).copied(),
    }
}

/// Whether there are different numbers, or one alone.
fn differ(left: Option<i64>, right: Option<i64>) -> bool
    ensures { result ≡ differ left right }
{
    match (left, right) {
        (Some(left), Some(right)) => left != right,
        (None, None) => false,
        _ => true,
    }
}

/// Whether a list with the left element comes before one with the right, where they first differ.
pub(crate) fn comes_before(left: Option<i64>, right: Option<i64>) -> bool
    ensures { result ≡ comes_before left right }
{
    match (left, right) {
        (Some(left), Some(right)) => left < right,
        (None, Some(_)) => true,
        (_, None) => false,
    }
}

/// Whether both are the same number.
pub(crate) fn agree(left: Option<i64>, right: Option<i64>) -> bool
    ensures { result ≡ agree left right }
{
    match (left, right) {
        (Some(left), Some(right)) => left == right,
        _ => false,
    }
}

/// The first element with this value, where the other value doesn't come before it.
pub(crate) fn early(before: i64, value: i64, elements: &Elements) -> Option<Early>
    ensures early { IfSome result (IsEarly (ints elements.now)) }
    ensures before { IfSome result (λ e. e.before ≡ before) }
    ensures value { IfSome result (λ e. e.value ≡ value) }
{
    for place in 0..elements.len() {
        if elements.int(place) == value {
            return Some(Early {
                place,
                value,
                before,
            });
        }
        if elements.int(place) == before {
            return None;
        }
    }
    None
}

/// The first set with the value and without the other one, where no set before it has the other one
/// alone.
pub(crate) fn early_set(before: i64, value: i64, parts: &Elements) -> Option<Early>
    ensures early { IfSome result (IsEarlySet (sets parts.now)) }
    ensures before { IfSome result (λ e. e.before ≡ before) }
    ensures value { IfSome result (λ e. e.value ≡ value) }
{
    for place in 0..parts.len() {
        if has_only(parts.set(place), value, before) {
            return Some(Early {
                place,
                value,
                before,
            });
        }
        if has_only(parts.set(place), before, value) {
            return None;
        }
    }
    None
}

/// The first value of a chain that comes where the one before it in the chain doesn't come before
/// it.
pub(crate) fn early_in_chain(chain: &Elements, elements: &Elements) -> Option<Early>
    ensures { IfSome result (IsEarlyInChain (ints chain.now) (ints elements.now)) }
{
    for next in 1..chain.len() {
        let (before, value) = (chain.int(next - 1), chain.int(next));
        if let Some(found) = early(before, value, elements) {
            return Some(found);
        }
    }
    None
}

/// The first element above 1 that is greater by more than one than all before it: the number just
/// below it doesn't come before it.
pub(crate) fn early_in_sequence(elements: &Elements) -> Option<Early>
    ensures early { IfSome result (IsEarly (ints elements.now)) }
    ensures below { IfSome result (λ e. e.before ≡ e.value -ℤ pos 1) }
    ensures above { IfSome result (λ e. int_lt (pos 1) e.value ≡ true) }
{
    let mut most: i64 = 0;
    for place in 0..elements.len() {
        let value = elements.int(place);
        if value > 1 && value - 1 > most {
            return early(value - 1, value, elements);
        }
        most = most.max(value);
    }
    None
}
