//! Reading the arguments of a constraint that fits a row.

use fz_store::{Argument, ConstraintParts, Scalar, Scalars, Slot, Value, part, scalar_at};
use std::slice;

/// The argument at an index as a scalar: the row has one there.
pub(crate) fn scalar_in<'m>(parts: &ConstraintParts<'m, '_>, index: usize) -> Scalar<'m> {
    match parts.arguments().get(index) {
        Some(Argument::One(slot)) => scalar_at(&parts.store.constants, *slot),
        Some(Argument::List(_)) | None => Scalar::Number(0),
    }
}

/// The elements of the argument at an index: the row has an array there.
pub(crate) fn elements_in<'m>(parts: &ConstraintParts<'m, '_>, index: usize) -> Scalars<'m> {
    let Some(argument) = parts.arguments().get(index) else {
        return no_elements();
    };
    match argument {
        Argument::One(slot) => declared_elements(parts, *slot),
        Argument::List(at) => Scalars {
            slots: part(&parts.store.slots, *at),
            constants: &parts.store.constants,
        },
    }
}

/// The slots of an argument: its only one, or those of a list.
pub(crate) fn slots_of<'m>(parts: &ConstraintParts<'m, '_>, argument: &'m Argument) -> &'m [Slot] {
    match argument {
        Argument::One(slot) => slice::from_ref(slot),
        Argument::List(at) => part(&parts.store.slots, *at),
    }
}

/// The elements of the declared array that a slot is.
pub(crate) fn declared_elements<'m>(parts: &ConstraintParts<'m, '_>, slot: Slot) -> Scalars<'m> {
    let Slot::Array(number) = slot else {
        return no_elements();
    };
    match parts.arrays.get(number as usize) {
        Some(array) => Scalars {
            slots: &array.elements.slots,
            constants: &array.elements.constants,
        },
        None => no_elements(),
    }
}

/// Those of an argument that isn't there, or that is no array.
fn no_elements<'m>() -> Scalars<'m> {
    Scalars {
        slots: &[],
        constants: &[],
    }
}
