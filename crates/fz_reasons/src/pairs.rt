//! Two elements that clash.

ghost use Rattle.std.specs.Prelude.{◌≡◌, ◌<◌, true, IfOk, IfSome, Some, length, slice_get};
ghost use Rattle.fz_builtins.specs.of_meaning.Relations.{is_nonzero};
ghost use Rattle.fz_builtins.specs.of_kernel.Views.{arguments_of, assigned, ints, sets, slots_of};
ghost use Rattle.fz_reasons.specs.Elements.{AreUnlike, IsClash, IsShared};
ghost use Rattle.fz_reasons.specs.Reasons.{Says, neighbours_of};

use crate::readings::{element_kind, numbers_in};
use crate::reason::{Clash, Neighbours, Reason, Relation, Sides};
use fz_globals::partition::are_disjoint;
use fz_kernel::{ArgumentView, Elements};
use fz_store::Builtin;
use std::alloc::{AllocError, Global};

/// Two equal elements: the first that has an equal one before it, and that one; where zeros are
/// spared, of those that aren't 0.
pub(crate) fn clash(elements: &Elements, spare: bool) -> Option<Clash>
    ensures clash { IfSome result (IsClash (ints elements.now)) }
    ensures nonzero { spare ≡ true → IfSome result (λ c. is_nonzero c.value ≡ true) }
{
    for other in 0..elements.len() {
        if spare && elements.int(other) == 0 {
            continue;
        }
        if let Some(clash) = equal_before(elements, other) {
            return Some(clash);
        }
    }
    None
}

/// The first element before an index that is equal to the one there.
fn equal_before(elements: &Elements, other: usize) -> Option<Clash>
    requires in_range { other < length (slots_of elements.now) }
    ensures clash { IfSome result (IsClash (ints elements.now)) }
    ensures there { IfSome result (λ c. slice_get (ints elements.now) other ≡ Some c.value) }
{
    let value = elements.int(other);
    for one in 0..other {
        if elements.int(one) == value {
            return Some(Clash { one, other, value });
        }
    }
    None
}

/// Two sets that have an element in common: the first that has one with a set before it, and that
/// one.
pub(crate) fn shared(alloc: Global, parts: &Elements) -> Result<Option<Clash>, AllocError>
    ensures { IfOk result (λ o. IfSome o (IsShared (sets parts.now))) }
{
    for other in 0..parts.len() {
        for one in 0..other {
            if let Some(clash) = shared_by(alloc, parts, one, other)? {
                return Ok(Some(clash));
            }
        }
    }
    Ok(None)
}

/// An element that two sets have in common: where there is one, so is the first of a range.
fn shared_by(
    alloc: Global,
    parts: &Elements,
    one: usize,
    other: usize,
) -> Result<Option<Clash>, AllocError>
    requires order { one < other }
    requires in_range { other < length (slots_of parts.now) }
    ensures { IfOk result (λ o. IfSome o (IsShared (sets parts.now))) }
{
    let (first, second) = (parts.set(one), parts.set(other));
    if are_disjoint(first, second) {
        return Ok(None);
    }
    for set in [first, second] {
        for range in &set.ranges(alloc)? {
            let value = range.lo;
            if first.contains(value) && second.contains(value) {
                return Ok(Some(Clash { one, other, value }));
            }
        }
    }
    Ok(None)
}

#[tactic(auto, unfolding(crate::specs::Reasons::Says))]
pub(crate) fn by_neighbours(
    alloc: Global,
    builtin: Builtin,
    view: &ArgumentView<'_, '_>,
) -> Result<Option<Reason>, AllocError>
    ensures { IfOk result (λ o. IfSome o
        (Says builtin (assigned view.now) (arguments_of view.now))) }
{
    let Some(relation) = neighbours_of(builtin) else {
        return Ok(None);
    };
    let numbers = numbers_in(alloc, element_kind(builtin), &view.elements(0))?;
    Ok(unlike_neighbours(relation, &numbers).map(Reason::Neighbours))
}

fn neighbours_of(builtin: Builtin) -> Option<Relation>
    ensures { result ≡ neighbours_of builtin }
{
    match builtin {
        Builtin::FznAllEqualInt => Some(Relation::Equal),
        Builtin::FznIncreasingInt => Some(Relation::AtMost),
        Builtin::FznDecreasingInt => Some(Relation::AtLeast),
        Builtin::FznStrictlyIncreasingInt => Some(Relation::Below),
        Builtin::FznIncreasingBool => Some(Relation::AtMost),
        Builtin::FznDecreasingBool => Some(Relation::AtLeast),
        _ => None,
    }
}

/// The first number that doesn't compare so with the next one.
fn unlike_neighbours(relation: Relation, numbers: &[i64]) -> Option<Neighbours>
    ensures { IfSome result (AreUnlike relation numbers.now) }
{
    for place in 0..numbers.len().saturating_sub(1) {
        let sides = Sides {
            left: i128::from(numbers[place]),
            relation,
            right: i128::from(numbers[place + 1]),
        };
        if !sides.hold() {
            return Some(Neighbours { place, sides });
        }
    }
    None
}
