//! A number that is in one set and not in another.

ghost use Rattle.std.specs.Prelude.{◌≡◌, int_lt, ◌+ℤ◌, ◌-ℤ◌, pos, IfOk, IfSome, false};
ghost use Rattle.std.specs.FinSet as number_sets;
ghost use Rattle.std.specs.List.{list_any};
ghost use Rattle.std.specs.Option.{option_map_or};
ghost use Rattle.fz_builtins.specs.of_meaning.Relations.{chosen, element_at, is_among};
ghost use Rattle.fz_builtins.specs.of_meaning.declared.builtin.Builtin.TheVariants.{GecodeRange};
ghost use Rattle.fz_builtins.specs.of_kernel.Views.{arguments_of, assigned, ints, sets};
ghost use Rattle.fz_builtins.specs.Readings.{int, sets_of, truths};
ghost use Rattle.fz_reasons.specs.Reasons.{IsMisplaced, in_sets, is_misplaced, is_no_index};

use crate::places::{last_index, lies_between};
use crate::reason::Member;
use fz_globals::{has, index_at, place_from};
use fz_kernel::arrays::set_element;
use fz_kernel::{ArgumentView, Elements};
use fz_store::{Builtin, IntSet};
use std::alloc::{AllocError, Global};

/// A number by which a row over sets fails: where one does, so does an end of a range of a set or
/// the one behind it, or the index of a Boolean.
pub(crate) fn by_member(
    alloc: Global,
    builtin: Builtin,
    view: &ArgumentView<'_, '_>,
) -> Result<Option<Member>, AllocError>
    ensures { IfOk result (λ o. IfSome o
        (IsMisplaced builtin (assigned view.now) (arguments_of view.now))) }
{
    for argument in 0..3 {
        if let Some(member) = at_ends(alloc, builtin, view, view.set(argument))? {
            return Ok(Some(member));
        }
        let elements = view.elements(argument);
        for place in 0..elements.len() {
            if let Some(member) = at_ends(alloc, builtin, view, elements.set(place))? {
                return Ok(Some(member));
            }
            let index = view.int(2).saturating_add(place as i64);
            if let Some(member) = misplaced(builtin, view, index) {
                return Ok(Some(member));
            }
        }
    }
    Ok(None)
}

/// A number by which the set of chosen elements is another, or an index is none: where there is
/// one, so is an end of a range of a set, an element, or the number behind one of these.
pub(crate) fn by_element(
    alloc: Global,
    builtin: Builtin,
    view: &ArgumentView<'_, '_>,
) -> Result<Option<Member>, AllocError>
    ensures { IfOk result (λ o. IfSome o
        (IsMisplaced builtin (assigned view.now) (arguments_of view.now))) }
{
    for argument in 2..4 {
        if let Some(member) = at_ends(alloc, builtin, view, view.set(argument))? {
            return Ok(Some(member));
        }
    }
    let elements = view.elements(0);
    for place in 0..elements.len() {
        let element = elements.int(place);
        for number in [element, element.saturating_add(1)] {
            if let Some(member) = misplaced(builtin, view, number) {
                return Ok(Some(member));
            }
        }
    }
    Ok(None)
}

/// An end of a range of a set, or the number behind it, where the row fails by it.
fn at_ends(
    alloc: Global,
    builtin: Builtin,
    view: &ArgumentView<'_, '_>,
    set: &IntSet,
) -> Result<Option<Member>, AllocError>
    ensures { IfOk result (λ o. IfSome o
        (IsMisplaced builtin (assigned view.now) (arguments_of view.now))) }
{
    for range in &set.ranges(alloc)? {
        for number in [range.lo, range.hi, range.hi.saturating_add(1)] {
            if let Some(member) = misplaced(builtin, view, number) {
                return Ok(Some(member));
            }
        }
    }
    Ok(None)
}

/// In which sets a number is, where the row fails by it.
fn misplaced(builtin: Builtin, view: &ArgumentView<'_, '_>, number: i64) -> Option<Member>
    ensures { IfSome result (IsMisplaced builtin (assigned view.now) (arguments_of view.now)) }
{
    let (first, second, third) = in_sets(builtin, view, number);
    if is_misplaced(builtin, first, second, third) {
        Some(Member {
            number,
            first,
            second,
            third,
        })
    } else {
        None
    }
}

/// In which of the sets that a row compares a number is.
fn in_sets(builtin: Builtin, view: &ArgumentView<'_, '_>, number: i64) -> (bool, bool, bool)
    ensures { in_sets builtin (assigned view.now) (arguments_of view.now) number ≡ result }
{
    match builtin {
        Builtin::SetConvex => {
            let set = view.set(0);
            (
                has_less(set, number),
                set.contains(number),
                has_more(set, number),
            )
        }
        Builtin::ArraySetElement => {
            let first = is_in_element(view, number);
            (first, view.set(2).contains(number), false)
        }
        Builtin::GecodeArraySetElementUnion => {
            let first = is_in_chosen(view.set(0), &view.elements(1), number);
            let third = is_no_index(view.set(0), 1, view.elements(1).len(), number);
            (first, view.set(2).contains(number), third)
        }
        Builtin::GecodeRange => in_range(view, number),
        Builtin::FznPartitionSet => {
            let first = is_in_one(&view.elements(0), number);
            (first, view.set(1).contains(number), false)
        }
        Builtin::GecodeLinkSetToBooleans => {
            let second = is_true_at(view, number);
            (view.set(0).contains(number), second, false)
        }
        _ => (
            view.set(0).contains(number),
            view.set(1).contains(number),
            view.set(2).contains(number),
        ),
    }
}

/// Whether an element of the set is less than a number.
fn has_less(set: &IntSet, number: i64) -> bool
    ensures { result ≡ list_any (λ x. int_lt x number) (number_sets.items set.now) }
{
    !set.within(number, i64::MAX)
}

/// Whether an element of the set is more than a number.
fn has_more(set: &IntSet, number: i64) -> bool
    ensures { result ≡ list_any (λ x. int_lt number x) (number_sets.items set.now) }
{
    !set.within(i64::MIN, number)
}

/// Whether a number is one of the chosen elements, is in the set, and is in that of the indices and
/// none.
fn in_range(view: &ArgumentView<'_, '_>, number: i64) -> (bool, bool, bool)
    ensures { in_sets GecodeRange (assigned view.now) (arguments_of view.now) number ≡ result }
{
    let elements = view.elements(0);
    let offset = view.int(1);
    let indices = view.set(2);
    (
        is_chosen(&elements, offset, indices, number),
        view.set(3).contains(number),
        is_no_index(indices, offset, elements.len(), number),
    )
}

/// Whether a number is in a set of indices and isn't one of `count` indices from `first` on.
fn is_no_index(indices: &IntSet, first: i64, count: usize, number: i64) -> bool
    ensures { result ≡ is_no_index first count indices.now number }
{
    let last = last_index(first, count);
    indices.contains(number) && !lies_between(i128::from(first), last, i128::from(number))
}

/// Whether a number is in the element at the index.
fn is_in_element(view: &ArgumentView<'_, '_>, number: i64) -> bool
    ensures { result ≡ option_map_or (λ s. number_sets.contains s number)
        (element_at (sets_of view.now 1) (int view.now 0)) false }
{
    match set_element(view.int(0), &view.elements(1)) {
        Some(set) => set.contains(number),
        None => false,
    }
}

/// Whether a number is in one of the sets.
fn is_in_one(parts: &Elements, number: i64) -> bool
    ensures { result ≡ list_any (λ s. number_sets.contains s number) (sets parts.now) }
{
    for place in 0..parts.len() {
        if parts.set(place).contains(number) {
            return true;
        }
    }
    false
}

/// Whether a number is in one of the sets whose indices, from 1 on, are in `indices`.
fn is_in_chosen(indices: &IntSet, parts: &Elements, number: i64) -> bool
    ensures { result ≡ list_any (λ s. number_sets.contains s number)
        (chosen (pos 1) (sets parts.now) indices.now) }
{
    for place in 0..parts.len() {
        let part = parts.set(place);
        if has(indices, index_at(1, place)) && part.contains(number) {
            return true;
        }
    }
    false
}

/// Whether a number is one of the elements whose indices, from `first` on, are in `indices`.
fn is_chosen(elements: &Elements, first: i64, indices: &IntSet, number: i64) -> bool
    ensures { result ≡ is_among number (chosen first (ints elements.now) indices.now) }
{
    for place in 0..elements.len() {
        let element = elements.int(place);
        if has(indices, index_at(first, place)) && element == number {
            return true;
        }
    }
    false
}

/// Whether the Boolean whose index is the number is true.
fn is_true_at(view: &ArgumentView<'_, '_>, number: i64) -> bool
    ensures { result ≡ option_map_or (λ t. t)
        (element_at (truths view.now 1) ((number -ℤ int view.now 2) +ℤ pos 1)) false }
{
    let flags = view.elements(1);
    match place_from(number, view.int(2), flags.len()) {
        Some(place) => flags.truth(place),
        None => false,
    }
}

/// Whether a row over sets fails by a number that is in these.
fn is_misplaced(builtin: Builtin, first: bool, second: bool, third: bool) -> bool
    ensures { result ≡ is_misplaced builtin first second third }
{
    match builtin {
        Builtin::SetEq
        | Builtin::ArraySetElement
        | Builtin::FznPartitionSet
        | Builtin::GecodeLinkSetToBooleans => first != second,
        Builtin::GecodeArraySetElementUnion | Builtin::GecodeRange => first != second || third,
        Builtin::SetSubset => first && !second,
        Builtin::SetSuperset => second && !first,
        Builtin::SetUnion => third != (first || second),
        Builtin::SetIntersect => third != (first && second),
        Builtin::SetDiff => third != (first && !second),
        Builtin::SetSymdiff => third != (first != second),
        Builtin::FznDisjoint => first && second,
        Builtin::SetConvex => first && !second && third,
        _ => false,
    }
}
