//! What a constraint waits for, and the only scalar without a value among its arguments.

ghost use Rattle.std.specs.Prelude.{◌≡◌, ◌∷◌, [], List, flat_map, map};
ghost use Rattle.std.specs.List.{AllByRecursion};
ghost use Rattle.fz_builtins.specs.of_meaning.of_base.declared.value.Value.{Value};
ghost use Rattle.fz_builtins.specs.of_meaning.Meaning.{row_of, terms_at, terms_in};
ghost use Rattle.fz_builtins.specs.of_meaning.declared.term.Term.TheVariants.{Var};
ghost use Rattle.fz_builtins.specs.of_store.Parts.{constraint_view, kept_row, place_view};
ghost use Rattle.fz_builtins.specs.of_store.Slots.{slot_term};
ghost use Rattle.fz_builtins.specs.of_meaning.Steps.{open_terms};
ghost use Rattle.fz_model.specs.Openings.{AreOpen, IsFlat, IsOpenIn, IsOpening, posted_with, terms_of};

use fz_store::{Argument, ConstraintParts, Partial, Slot, item_at, part};

/// What a constraint waits for before it can give its defined variable a value.
#[derive(Clone, Copy)]
pub enum Opening {
    /// it never gives one
    Never,
    /// for a value of the variable of this number: another one, or its defined variable where that
    /// is there twice
    Waits(usize),
    /// for nothing: the defined variable is its only scalar without a value
    At(Spot),
}

/// Where the defined variable is among a constraint's arguments: the argument's index, and the
/// index among the scalars of that argument, both counted from 0.
#[derive(Clone, Copy)]
pub struct Spot {
    pub variable: usize,
    pub argument: usize,
    pub place: usize,
}

/// Which scalars have no value: none; the defined variable alone, once, at an index counted from 0;
/// or the variable of a number, beside which the defined variable isn't alone.
#[derive(Clone, Copy)]
pub(crate) enum Open {
    Nothing,
    Target(usize),
    Other(usize),
}

/// Whether a variable has no value, and whether it is the defined variable then.
#[inline(always)]
fn open_variable(number: usize, target: usize, partial: &Partial) -> Open
    ensures { AreOpen partial.now target (Var number ∷ []) result }
{
    if partial.has(number) {
        return Open::Nothing;
    }
    if number == target {
        return Open::Target(0);
    }
    Open::Other(number)
}

/// Whether a slot that is no array has no value. Only variables can be without one.
#[inline(always)]
fn open_slot(slot: &Slot, target: usize, partial: &Partial) -> Open
    ensures { (cs : List Value) → AreOpen partial.now target (slot_term cs slot.now ∷ []) result }
{
    match slot {
        Slot::Variable(number) => open_variable(*number as usize, target, partial),
        Slot::Number(_) | Slot::Truth(_) | Slot::Constant(_) | Slot::Array(_) => Open::Nothing,
    }
}

/// Which slots that are no arrays have no value.
#[inline]
fn open_slots(slots: &[Slot], target: usize, partial: &Partial) -> Open
    ensures { (cs : List Value) → AreOpen partial.now target (map (slot_term cs) slots.now) result }
{
    let mut found = None;
    for place in 0..slots.len() {
        match open_slot(item_at(slots, place), target, partial) {
            Open::Nothing => {}
            Open::Other(other) => return Open::Other(other),
            Open::Target(_) => match found {
                Some(_) => return Open::Other(target),
                None => found = Some(place),
            },
        }
    }
    match found {
        Some(place) => Open::Target(place),
        None => Open::Nothing,
    }
}

/// Which scalars of a slot have no value: it is one, or an array has them.
#[inline]
fn open_place(
    slot: &Slot,
    parts: &ConstraintParts<'_, '_>,
    target: usize,
    partial: &Partial,
) -> Open
    ensures { AreOpen partial.now target
        (terms_at (place_view parts.now.variables.now parts.now.arrays.now
        parts.now.store.now.constants.items slot.now)) result }
{
    match slot {
        Slot::Array(number) => match parts.arrays.get(*number as usize) {
            Some(array) => open_slots(&array.elements.slots, target, partial),
            None => Open::Nothing,
        },
        Slot::Variable(number) => open_variable(*number as usize, target, partial),
        Slot::Number(_) | Slot::Truth(_) | Slot::Constant(_) => Open::Nothing,
    }
}

/// Which scalars of an argument have no value.
#[inline]
fn open_in(
    argument: &Argument,
    parts: &ConstraintParts<'_, '_>,
    target: usize,
    partial: &Partial,
) -> Open
    requires flat { IsFlat parts.now argument.now }
    ensures { AreOpen partial.now target (terms_of parts.now argument.now) result }
{
    match argument {
        Argument::One(slot) => open_place(slot, parts, target, partial),
        Argument::List(at) => open_slots(part(&parts.store.slots, *at), target, partial),
    }
}

/// What a constraint with these arguments waits for before it can give the variable a value.
fn opening_among(
    arguments: &[Argument],
    parts: &ConstraintParts<'_, '_>,
    target: usize,
    partial: &Partial,
) -> Opening
    requires flat { AllByRecursion (IsFlat parts.now) arguments.now }
    ensures opening { IsOpening partial.now (posted_with parts.now arguments.now target) result }
    ensures none_open { result ≡ Opening.Never → open_terms partial.now
        (flat_map terms_in (posted_with parts.now arguments.now target).arguments) ≡ [] }
{
    let mut found = None;
    for number in 0..arguments.len() {
        match open_in(item_at(arguments, number), parts, target, partial) {
            Open::Nothing => {}
            Open::Other(other) => return Opening::Waits(other),
            Open::Target(place) => match found {
                Some(_) => return Opening::Waits(target),
                None => {
                    found = Some(Spot {
                        variable: target,
                        argument: number,
                        place,
                    });
                }
            },
        }
    }
    match found {
        Some(spot) => Opening::At(spot),
        None => Opening::Never,
    }
}

/// What a constraint waits for before it can give its defined variable a value. It takes no memory,
/// and reads the arguments up to the first scalar that is waited for.
#[inline(always)]
pub fn opening_of(parts: &ConstraintParts<'_, '_>, partial: &Partial) -> Opening
    requires known { kept_row parts.now.posted.now ≡ row_of (constraint_view parts.now) }
    ensures { IsOpening partial.now (constraint_view parts.now) result }
{
    let Some(target) = parts.posted.target else {
        return Opening::Never;
    };
    let Some(_) = parts.posted.known else {
        return Opening::Never;
    };
    if partial.has(target) {
        return Opening::Never;
    }
    opening_among(parts.arguments(), parts, target, partial)
}

/// A variable without a value among the arguments of a constraint, where it has a row. It takes no
/// memory. What a constraint waits for to give one variable a value names another one without.
pub(crate) fn open_in_row(parts: &ConstraintParts<'_, '_>, partial: &Partial) -> Option<usize>
    requires known { kept_row parts.now.posted.now ≡ row_of (constraint_view parts.now) }
    ensures { IsOpenIn partial.now (constraint_view parts.now) result }
{
    let Some(_) = parts.posted.known else {
        return None;
    };
    match opening_among(parts.arguments(), parts, 0, partial) {
        Opening::Never => None,
        Opening::Waits(other) => Some(other),
        Opening::At(spot) => Some(spot.variable),
    }
}
