//! Reading one slot. That of an array has no value to read.

ghost use Rattle.std.specs.Prelude.{◌≡◌, Some};
ghost use Rattle.std.specs.List.{list_all};
ghost use Rattle.std.specs.FinSet as sets;
ghost use Rattle.fz_store.specs.Partial.{number_in, truth_in};
ghost use Rattle.fz_store.specs.Slots.{constant_at};
ghost use Rattle.fz_kernel.specs.Given.{bool_of, int_of, is_read, set_in, set_of_slot};
ghost use Rattle.fz_kernel.specs.Views.{slot_read};

use crate::reading::{bool_in, int_in, set_in};
use fz_store::{IntSet, Kind, Partial, Slot, Value, kind_of, same_kind};

/// The number of a constant.
#[inline(always)]
fn constant_int(constants: &[Value], place: u32) -> i64
    ensures { result ≡ number_in (Some (constant_at constants.now place)) }
{
    int_in(constants.get(place as usize))
}

/// The Boolean of a constant.
#[inline(always)]
fn constant_truth(constants: &[Value], place: u32) -> bool
    ensures { result ≡ truth_in (Some (constant_at constants.now place)) }
{
    bool_in(constants.get(place as usize))
}

/// The set of a constant.
#[inline(always)]
fn constant_set<'s>(constants: &'s [Value], place: u32, empty: &'s IntSet) -> &'s IntSet
    requires { empty.now ≡ sets.empty }
    ensures { result.now ≡ set_in (Some (constant_at constants.now place)) }
{
    set_in(constants.get(place as usize), empty)
}

/// The number that a slot is read as.
#[inline(always)]
pub(crate) fn slot_int(partial: &Partial, constants: &[Value], slot: &Slot) -> i64
    ensures { result ≡ int_of partial.now (slot_read constants.now slot.now) }
{
    match slot {
        Slot::Variable(number) => partial.number(*number as usize),
        Slot::Number(number) => i64::from(*number),
        Slot::Truth(_) => 0,
        Slot::Constant(place) => constant_int(constants, *place),
        Slot::Array(_) => 0,
    }
}

/// The Boolean that a slot is read as.
#[inline(always)]
pub(crate) fn slot_truth(partial: &Partial, constants: &[Value], slot: &Slot) -> bool
    ensures { result ≡ bool_of partial.now (slot_read constants.now slot.now) }
{
    match slot {
        Slot::Variable(number) => partial.truth(*number as usize),
        Slot::Number(_) => false,
        Slot::Truth(truth) => *truth,
        Slot::Constant(place) => constant_truth(constants, *place),
        Slot::Array(_) => false,
    }
}

/// The set that a slot is read as.
#[inline(always)]
pub(crate) fn slot_set<'s>(partial: &'s Partial, constants: &'s [Value], slot: &Slot) -> &'s IntSet
    ensures { result.now ≡ set_of_slot partial.now (slot_read constants.now slot.now) }
{
    match slot {
        Slot::Variable(number) => set_in(partial.get(*number as usize), partial.no_numbers()),
        Slot::Number(_) => partial.no_numbers(),
        Slot::Truth(_) => partial.no_numbers(),
        Slot::Constant(place) => constant_set(constants, *place, partial.no_numbers()),
        Slot::Array(_) => partial.no_numbers(),
    }
}

/// Whether a slot has a value of the kind.
#[inline(always)]
pub(crate) fn slot_is_read(partial: &Partial, constants: &[Value], kind: Kind, slot: &Slot) -> bool
    ensures { result ≡ is_read partial.now kind (slot_read constants.now slot.now) }
{
    match slot {
        Slot::Variable(number) => partial
            .get(*number as usize)
            .is_some_and(|value| same_kind(kind_of(value), kind)),
        Slot::Number(_) => matches!(kind, Kind::Int),
        Slot::Truth(_) => matches!(kind, Kind::Bool),
        Slot::Constant(place) => constants.get(*place as usize).map_or(
            matches!(kind, Kind::Int),
            |value| same_kind(kind_of(value), kind),
        ),
        Slot::Array(_) => false,
    }
}

/// Whether each slot has a value of the kind.
pub(crate) fn slots_are_read(
    partial: &Partial,
    constants: &[Value],
    kind: Kind,
    slots: &[Slot],
) -> bool
    ensures { result ≡ list_all (λ s. is_read partial.now kind
        (slot_read constants.now s)) slots.now }
{
    slots
        .iter()
        .all(|slot| slot_is_read(partial, constants, kind, slot))
}
