//! The notes of a message on a printed name that has another value.

use crate::amounts::push_value;
use crate::case::Case;
use crate::differing::first_differing;
use crate::excerpt::shown_text;
use crate::fixed::value_of;
use crate::message::Message;
use crate::naming::push_element;
use crate::notes::note_variables;
use crate::parts::{Owner, Phrase};
use crate::place::declaration_of;
use crate::verdict::Reading;
use fz_data::literal_value;
use fz_places::indices_of;
use fz_store::{Scalar, Scalars, What};
use fz_tree::{Literal, Printed, PrintedValue, Span};
use std::alloc::AllocError;

/// The item of a name that the block of a case prints.
fn item_of<'e>(case: &Case<'e, '_>, name: &[u8]) -> Option<&'e Printed<'e>> {
    for item in &case.block.items {
        if item.name.text == name {
            return Some(item);
        }
    }
    None
}

/// The byte range, within the stream, of a name that the block of a case prints.
pub(crate) fn printed_place(case: &Case<'_, '_>, name: &[u8]) -> Option<Span> {
    let Span { start, end } = item_of(case, name)?.name.span;
    let offset = case.block.offset;
    Some(Span {
        start: offset.saturating_add(start),
        end: offset.saturating_add(end),
    })
}

/// Adds notes on a printed name that has another value: on the variable that it is, or on the first
/// element that differs.
pub(crate) fn note_printed(
    reading: &Reading,
    message: &mut Message,
    name: &[u8],
) -> Result<(), AllocError> {
    let (Some(found), Some(item)) = (reading.model.find(name), item_of(reading.case, name)) else {
        return Ok(());
    };
    match (found.what, &item.value) {
        (What::Scalar(scalar), _) => note_scalar(reading, message, scalar),
        (What::Array(_, scalars), PrintedValue::Array { elements, .. }) => {
            note_elements(reading, message, name, scalars, elements)
        }
        (What::Array(_, _), PrintedValue::One(_)) => Ok(()),
    }
}

/// Adds the note on a scalar, where it is a variable.
fn note_scalar(
    reading: &Reading,
    message: &mut Message,
    scalar: Scalar<'_>,
) -> Result<(), AllocError> {
    match scalar {
        Scalar::Variable(number) => note_variables(reading, message, &[number], &[]),
        Scalar::Number(_) | Scalar::Truth(_) | Scalar::Set(_) => Ok(()),
    }
}

/// Adds the notes on the first element of an array that hasn't its printed value.
fn note_elements(
    reading: &Reading,
    message: &mut Message,
    name: &[u8],
    scalars: Scalars<'_>,
    literals: &[Literal],
) -> Result<(), AllocError> {
    let Some(place) = first_differing(reading.alloc, reading.filling, scalars, literals)? else {
        return Ok(());
    };
    let (Some(scalar), Some(literal)) = (scalars.get(place), literals.get(place)) else {
        return Ok(());
    };
    note_scalar(reading, message, scalar)?;
    let mut told = Phrase::new(reading.alloc);
    push_name(reading, &mut told, name, place)?;
    push_values(&mut told, Owner::at(name, place), scalar, literal)?;
    message.note(told)
}

/// Adds the element of an array at a place, from 0, as `a[1,2]`, or without index sets by its
/// number.
fn push_name(
    reading: &Reading,
    phrase: &mut Phrase,
    name: &[u8],
    place: usize,
) -> Result<(), AllocError> {
    if let Some(decl) = declaration_of(reading.ast, name)
        && let Some(indices) = indices_of(reading.alloc, decl, place)?
    {
        let mut element = String::new(reading.alloc);
        push_element(&mut element, name, &indices)?;
        return phrase.variable(Owner::at(name, place), &element);
    }
    phrase.words("element ")?;
    phrase.number(place.saturating_add(1))?;
    phrase.words(" of ")?;
    phrase.variable(Owner::of(name), &shown_text(reading.alloc, name)?)
}

/// Adds what is printed for a scalar, and what it is, where it is no variable.
fn push_values(
    phrase: &mut Phrase,
    owner: Owner<'_>,
    scalar: Scalar<'_>,
    literal: &Literal,
) -> Result<(), AllocError> {
    let alloc = *phrase.parts.allocator();
    let printed = literal_value(alloc, &literal.what)?;
    push_value(phrase, " is printed as ", Some(owner), &printed)?;
    phrase.words(" here")?;
    match value_of(alloc, scalar)? {
        Some(value) => push_value(phrase, ", and is ", Some(owner), &value),
        None => Ok(()),
    }
}
