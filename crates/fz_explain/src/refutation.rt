//! The notes of a message on a block that bounds refute: no point fails under its filling, and one
//! can't hold within the bounds that are left.

ghost use Rattle.std.specs.Prelude.{◌<◌, length};
ghost use Rattle.fz_filling.specs.of_model.Meaning.{points};

use crate::bounds::note_on_bounds;
use crate::chain::note_chain;
use crate::message::Message;
use crate::notes::note_variables;
use crate::parts::Phrase;
use crate::variables::variables_of;
use crate::verdict::Reading;
use fz_index::Refutation;
use fz_store::{Kind, Model};
use std::alloc::{AllocError, Global};

/// What is said behind the bounds, where so many choices were tried.
fn none_will_do(alloc: Global, tried: usize) -> Result<Phrase, AllocError> {
    if tried <= 1 {
        return Phrase::of_words(alloc, "no choice of these will do here");
    }
    let mut told = Phrase::of_words(alloc, "no choice of the values left out will do: ")?;
    told.number(tried)?;
    told.words(" were tried")?;
    Ok(told)
}

/// Adds the variables in the point that can't hold: those with a value, sets without one, and the
/// others without one with their bounds, and what narrowed these.
pub(crate) fn note_refutation(
    reading: &Reading,
    message: &mut Message,
    refutation: &Refutation,
) -> Result<(), AllocError> {
    let point = refutation.point;
    if point >= reading.model.points() {
        return Ok(());
    }
    note_valued(reading, message, point)?;
    let past = reading.past(refutation.steps.as_slice())?;
    for left in &refutation.left {
        let step = past.last_of(left.variable);
        let note = note_on_bounds(reading, *left, step)?;
        message.variables.push(note)?;
    }
    note_chain(reading, message, point, &past)?;
    message.note(none_will_do(reading.alloc, refutation.tried)?)
}

/// Adds notes on the variables in a point that have a value, or are sets, which have no bounds.
fn note_valued(reading: &Reading, message: &mut Message, point: usize) -> Result<(), AllocError>
    requires in_range { point < length (points reading.now.model.now) }
{
    let mut valued = variables_of(reading.alloc, reading.model, point)?;
    valued.retain(|variable| reading.filling.has(*variable) || is_set(reading.model, *variable));
    note_variables(reading, message, &valued, &[])
}

fn is_set(model: &Model<'_>, variable: usize) -> bool {
    match model.variables().get(variable) {
        Some(declared) => matches!(declared.kind, Kind::Set),
        None => false,
    }
}
