//! Lists that aren't inverse, of numbers, of sets, or of numbers and sets.

ghost use Rattle.std.specs.Prelude.{◌≡◌, ◌<◌, ◌+ℤ◌, ◌-ℤ◌, suc, pos, length, true, false, IfOk, IfSome};
ghost use Rattle.std.specs.FinSet.{contains};
ghost use Rattle.std.specs.Option.{option_map_or};
ghost use Rattle.fz_builtins.specs.of_meaning.declared.builtin.Builtin.TheVariants.{GecodeIntSetChannel, GecodeInverseSet};
ghost use Rattle.fz_builtins.specs.of_meaning.Relations.{◌=ℤ◌};
ghost use Rattle.fz_builtins.specs.of_kernel.Views.{arguments_of, assigned, ints, sets, slots_of};
ghost use Rattle.fz_builtins.specs.of_globals.Held.{is_held};
ghost use Rattle.fz_reasons.specs.Elements.{IsInNoSet, IsNoIndexOf, IsNotBack, IsOneWay};
ghost use Rattle.fz_reasons.specs.Reasons.{Says};

use crate::reason::{OneWay, Reason};
use fz_globals::channels::is_held;
use fz_globals::index_at;
use fz_kernel::arrays::int_element_at;
use fz_kernel::{ArgumentView, Elements};
use fz_store::IntSet;
use std::alloc::{AllocError, Global};

/// The position, counted from 1, of an index.
pub(crate) fn as_place(first: i64, index: i64) -> i128
    ensures { result ≡ ((index -ℤ first) +ℤ pos 1) }
{
    i128::from(index) - i128::from(first) + 1
}

/// The first index of a list of which the other list doesn't lead back.
pub(crate) fn one_way(f: &Elements, fo: i64, g: &Elements, go: i64) -> Option<OneWay>
    ensures one_way { IfSome result (IsOneWay (ints f.now) fo (ints g.now) go) }
{
    for place in 0..f.len() {
        let value = f.int(place);
        let back = int_element_at(as_place(fo, value), g);
        if !leads_back(back, go, place) {
            return Some(OneWay { place, value, back });
        }
    }
    None
}

/// Whether an element is the index of this place.
fn leads_back(back: Option<i64>, first: i64, place: usize) -> bool
    ensures { result ≡ option_map_or (λ y. ((y -ℤ first) +ℤ pos 1) =ℤ pos (suc place)) back false }
{
    match back {
        Some(index) => as_place(first, index) == place as i128 + 1,
        None => false,
    }
}

/// A number that isn't in the set with its index, or an element of a set that isn't led back.
#[tactic(auto, unfolding(crate::specs::Reasons::Says))]
pub(crate) fn no_channel(
    alloc: Global,
    view: &ArgumentView<'_, '_>,
) -> Result<Option<Reason>, AllocError>
    ensures { IfOk result (λ o. IfSome o
        (Says GecodeIntSetChannel (assigned view.now) (arguments_of view.now))) }
{
    let (numbers, parts) = (view.elements(0), view.elements(2));
    let (first, first_part) = (view.int(1), view.int(3));
    match in_no_set(&numbers, first, &parts, first_part) {
        Some(found) => Ok(Some(Reason::OneWay(found))),
        None => {
            Ok(no_index_of(alloc, &parts, first_part, &numbers, first)?.map(Reason::OtherWay))
        }
    }
}

/// The first element in whose set its index isn't.
fn in_no_set(numbers: &Elements, first: i64, parts: &Elements, first_part: i64) -> Option<OneWay>
    ensures none { IfSome result (IsInNoSet (ints numbers.now) first (sets parts.now) first_part) }
{
    for place in 0..numbers.len() {
        let value = numbers.int(place);
        if !is_held(i128::from(first) + place as i128, value, parts, first_part) {
            return Some(OneWay {
                place,
                value,
                back: None,
            });
        }
    }
    None
}

/// The first set with an element that isn't the index of a number that is the set's index, and the
/// least such element.
fn no_index_of(
    alloc: Global,
    parts: &Elements,
    first_part: i64,
    numbers: &Elements,
    first: i64,
) -> Result<Option<OneWay>, AllocError>
    ensures none { IfOk result (λ o. IfSome o
        (IsNoIndexOf (sets parts.now) first_part (ints numbers.now) first)) }
{
    for place in 0..parts.len() {
        for range in &parts.set(place).ranges(alloc)? {
            for value in range.lo..=range.hi {
                if let Some(found) = not_back(parts, first_part, numbers, first, place, value) {
                    return Ok(Some(found));
                }
            }
        }
    }
    Ok(None)
}

/// The element of a set, where it isn't the index of a number that is the set's index.
fn not_back(
    parts: &Elements,
    first_part: i64,
    numbers: &Elements,
    first: i64,
    place: usize,
    value: i64,
) -> Option<OneWay>
    requires { place < length (slots_of parts.now) }
    ensures none { IfSome result
        (IsNoIndexOf (sets parts.now) first_part (ints numbers.now) first) }
{
    let back = int_element_at(as_place(first, value), numbers);
    if !parts.set(place).contains(value) || leads_back(back, first_part, place) {
        return None;
    }
    Some(OneWay { place, value, back })
}

/// An element of a set that doesn't lead back, of the first array or else of the second.
#[tactic(auto, unfolding(crate::specs::Reasons::Says))]
pub(crate) fn no_inverse(
    alloc: Global,
    view: &ArgumentView<'_, '_>,
) -> Result<Option<Reason>, AllocError>
    ensures { IfOk result (λ o. IfSome o
        (Says GecodeInverseSet (assigned view.now) (arguments_of view.now))) }
{
    let (a, b) = (view.elements(0), view.elements(1));
    let (first_a, first_b) = (view.int(2), view.int(3));
    match refers_nowhere(alloc, &a, first_a, &b, first_b)? {
        Some(found) => Ok(Some(Reason::OneWay(found))),
        None => Ok(refers_nowhere(alloc, &b, first_b, &a, first_a)?.map(Reason::OtherWay)),
    }
}

/// The first set with an element that isn't the index of a set that has the set's own index, and
/// the least such element.
fn refers_nowhere(
    alloc: Global,
    parts: &Elements,
    first: i64,
    others: &Elements,
    first_other: i64,
) -> Result<Option<OneWay>, AllocError>
    ensures none { IfOk result (λ o. IfSome o
        (IsNotBack (sets parts.now) first (sets others.now) first_other)) }
{
    for place in 0..parts.len() {
        let index = index_at(first, place);
        if let Some(value) = not_led_back(alloc, parts.set(place), index, others, first_other)? {
            return Ok(Some(OneWay {
                place,
                value,
                back: None,
            }));
        }
    }
    Ok(None)
}

/// The least element of a set that isn't the index of a set that has the index.
fn not_led_back(
    alloc: Global,
    part: &IntSet,
    index: i128,
    others: &Elements,
    first_other: i64,
) -> Result<Option<i64>, AllocError>
    ensures there { IfOk result (λ o. IfSome o (λ v. contains part.now v ≡ true)) }
    ensures none { IfOk result (λ o. IfSome o
        (λ v. is_held index v (sets others.now) first_other ≡ false)) }
{
    for range in &part.ranges(alloc)? {
        for value in range.lo..=range.hi {
            if part.contains(value) && !is_held(index, value, others, first_other) {
                return Ok(Some(value));
            }
        }
    }
    Ok(None)
}
