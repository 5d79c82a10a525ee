//! The scalars in the arguments of a constraint.

ghost use Rattle.std.specs.Prelude.{◌≡◌, ◌++◌, IfOk, OnOk, flat_map, map};
ghost use Rattle.fz_filling.specs.of_model.Meaning.{terms_at, terms_in};
ghost use Rattle.fz_filling.specs.of_model.States.{terms_at_argument};
ghost use Rattle.fz_filling.specs.of_model.Parts.{argument_view, constraint_view, place_view};
ghost use Rattle.fz_filling.specs.of_model.Slots.{scalar_term, slot_term};

use fz_places::Value;
use fz_store::{Argument, ConstraintParts, Scalar, Slot, part, scalar_at};
use std::alloc::{AllocError, Global};

/// Adds the scalars of a list of slots.
pub(crate) fn push_list<'m>(
    scalars: &mut Vec<Scalar<'m>>,
    slots: &[Slot],
    constants: &'m [Value],
) -> Result<(), AllocError>
    ensures { OnOk result (map scalar_term scalars.new.items
        ≡ map scalar_term scalars.old.items ++ map (slot_term constants.now) slots.now) }
{
    for slot in slots {
        scalars.push(scalar_at(constants, *slot))?;
    }
    Ok(())
}

/// Adds the scalars that a slot stands for: the elements of an array, or one scalar.
fn push_place<'m>(
    scalars: &mut Vec<Scalar<'m>>,
    parts: &ConstraintParts<'m, '_>,
    slot: Slot,
) -> Result<(), AllocError>
    ensures { OnOk result (map scalar_term scalars.new.items
        ≡ map scalar_term scalars.old.items
        ++ terms_at (place_view parts.now.variables.now parts.now.arrays.now
        parts.now.store.now.constants.items slot)) }
{
    let constants = &parts.store.constants;
    match slot {
        Slot::Array(number) => match parts.arrays.get(number as usize) {
            Some(array) => push_list(scalars, &array.elements.slots, &array.elements.constants),
            None => Ok(()),
        },
        Slot::Variable(_) | Slot::Number(_) | Slot::Truth(_) | Slot::Constant(_) => {
            Ok(scalars.push(scalar_at(constants, slot))?)
        }
    }
}

/// Adds the scalars that the slots of a list in brackets stand for.
fn push_places<'m>(
    scalars: &mut Vec<Scalar<'m>>,
    parts: &ConstraintParts<'m, '_>,
    slots: &[Slot],
) -> Result<(), AllocError>
    ensures { OnOk result (map scalar_term scalars.new.items
        ≡ map scalar_term scalars.old.items ++ flat_map terms_at
        (map (place_view parts.now.variables.now parts.now.arrays.now
        parts.now.store.now.constants.items) slots.now)) }
{
    for &slot in slots {
        push_place(scalars, parts, slot)?;
    }
    Ok(())
}

/// Adds the scalars of an argument.
pub(crate) fn push_argument<'m>(
    scalars: &mut Vec<Scalar<'m>>,
    parts: &ConstraintParts<'m, '_>,
    argument: Argument,
) -> Result<(), AllocError>
    ensures { OnOk result (map scalar_term scalars.new.items
        ≡ map scalar_term scalars.old.items ++ terms_in
        (argument_view parts.now.variables.now parts.now.arrays.now parts.now.store.now argument)) }
{
    match argument {
        Argument::One(slot) => push_place(scalars, parts, slot),
        Argument::List(segment) => push_places(scalars, parts, part(&parts.store.slots, segment)),
    }
}

/// The scalars of the argument at an index, from 0; none where there is no such argument.
pub(crate) fn scalars_at<'m>(
    alloc: Global,
    parts: &ConstraintParts<'m, '_>,
    place: usize,
) -> Result<Vec<Scalar<'m>>, AllocError>
    ensures { IfOk result (λ v. map scalar_term v.items
        ≡ terms_at_argument (constraint_view parts.now).arguments place) }
{
    let mut scalars = Vec::new(alloc);
    if let Some(&argument) = parts.arguments().get(place) {
        push_argument(&mut scalars, parts, argument)?;
    }
    Ok(scalars)
}
