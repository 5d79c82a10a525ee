//! The notes of a message on bounds of variables that have no value.

use crate::amounts::push_range;
use crate::notes::{Known, Note, Origin, by_its_domain, giver_of, owner_of, push_variable};
use crate::parts::{Owner, Phrase};
use crate::remarks::Remarks;
use crate::verdict::Reading;
use fz_index::{Ends, Left, Narrower, Narrowing};
use fz_store::{Kind, Model};
use std::alloc::AllocError;

/// The bounds of a variable. Of a Boolean 0 is false and 1 is true.
#[derive(Clone, Copy)]
pub struct Bounds {
    pub low: i64,
    pub high: i64,
    pub kind: Kind,
}

/// The note on the bounds of a variable that has no value, with the step that left them; without
/// one they are those of its domain.
pub(crate) fn note_on_bounds(
    reading: &Reading,
    left: Left,
    step: Option<&Narrowing>,
) -> Result<Note, AllocError> {
    let bounds = bounds_of(reading.model, left);
    let known = match step {
        Some(_) => Known::Narrowed(bounds),
        None => Known::Within(bounds),
    };
    let mut note = Note::new(reading.alloc, left.variable, known);
    note.tell_names(reading)?;
    note.origin = match step {
        Some(step) => narrower_of(reading, step, bounds.kind)?,
        None => by_its_domain(reading.alloc)?,
    };
    Ok(note)
}

/// Adds the bounds that a step left, and what narrowed them.
pub(crate) fn push_step(
    reading: &Reading,
    phrase: &mut Phrase,
    step: &Narrowing,
) -> Result<(), AllocError> {
    let bounds = bounds_of(reading.model, step.left);
    let owner = owner_of(reading, Some(step.left.variable));
    push_variable(reading, phrase, step.left.variable)?;
    push_bounds(phrase, " is narrowed to ", owner, bounds)?;
    phrase.words(", ")?;
    let origin = narrower_of(reading, step, bounds.kind)?;
    origin.push_to(phrase)
}

fn bounds_of(model: &Model<'_>, left: Left) -> Bounds {
    Bounds {
        low: left.low,
        high: left.high,
        kind: match model.variables().get(left.variable) {
            Some(variable) => variable.kind,
            None => Kind::Int,
        },
    }
}

/// What took numbers from a variable of this kind.
fn narrower_of(reading: &Reading, step: &Narrowing, kind: Kind) -> Result<Origin, AllocError> {
    match step.by {
        Narrower::Point(point) if point < reading.model.points() => {
            giver_of(reading, &reading.model.point(point))
        }
        Narrower::Point(_) => Ok(Origin::Nothing),
        Narrower::Trial(Ends { low, high }) => {
            let mut giver = Phrase::new(reading.alloc);
            let owner = owner_of(reading, Some(step.left.variable));
            push_bounds(&mut giver, "a trial of ", owner, Bounds { low, high, kind })?;
            Ok(Origin::Given(giver, None, Remarks::none(reading.alloc)))
        }
    }
}

/// Adds bounds in words, behind others.
pub(crate) fn push_bounds(
    phrase: &mut Phrase,
    front: &str,
    owner: Option<Owner<'_>>,
    bounds: Bounds,
) -> Result<(), AllocError> {
    phrase.words(front)?;
    let Bounds { low, high, kind } = bounds;
    match kind {
        Kind::Bool if low < high => {
            phrase.truth(owner, false)?;
            phrase.words(" or ")?;
            phrase.truth(owner, true)
        }
        Kind::Bool => phrase.truth(owner, low != 0),
        Kind::Int | Kind::Set => push_numbers(phrase, owner, low, high),
    }
}

/// Adds the numbers between bounds, of which the least and the greatest number are none.
fn push_numbers(
    phrase: &mut Phrase,
    owner: Option<Owner<'_>>,
    low: i64,
    high: i64,
) -> Result<(), AllocError> {
    match (low > i64::MIN, high < i64::MAX) {
        _ if low == high => phrase.value(owner, low),
        (true, true) => push_range(phrase, owner, low, high),
        (true, false) => {
            phrase.words("at least ")?;
            phrase.value(owner, low)
        }
        (false, true) => {
            phrase.words("at most ")?;
            phrase.value(owner, high)
        }
        (false, false) => phrase.words("any number"),
    }
}
