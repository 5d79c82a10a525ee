//! The notes of a message on what to do about a block that is undecided.

use crate::message::Message;
use crate::parts::Phrase;
use crate::verdict::Reading;
use fz_filling::{Completion, Reason, Verdict};
use fz_store::Model;
use std::alloc::{AllocError, Global};

/// A variable has no value, and none was looked for.
const LOOK_FOR_IT: &str =
    "look for it by --complete, or let the solver run `fzcheck show --print-all`";

/// A variable has no value, and none was found.
const PRINT_ALL: &str = "let the solver run `fzcheck show --print-all`";

/// A constraint isn't known.
const USE_LIBRARY: &str =
    "compile with fzcheck's library (share/fzcheck), or with the standard one";

/// The exponent of a power is negative.
const BOUND_EXPONENT: &str =
    "solvers differ in powers with a negative exponent: let its domain begin at 0";

/// A sum or a power is too large.
const TIGHTEN_DOMAINS: &str = "tighten the domains, so that no sum or power leaves 128 bits";

/// Adds what to do about a block that is undecided.
pub(crate) fn note_help(reading: &Reading, message: &mut Message) -> Result<(), AllocError> {
    let alloc = reading.alloc;
    let Verdict::Undecided(reason) = reading.case.verdict else {
        return Ok(());
    };
    match reason {
        Reason::NoValue(_) => note_help_on_value(reading, message),
        Reason::Unknown(number, _) => {
            note(alloc, message, help_on_unknown(reading.model, number))
        }
        Reason::TooLarge(_) => note(alloc, message, TIGHTEN_DOMAINS),
        Reason::NotShownBetter(_, _) => note(alloc, message, PRINT_ALL),
    }
}

/// What to do about the constraint of this number, from 1, that isn't known. Where it fits a row,
/// the power of that row isn't known.
fn help_on_unknown(model: &Model<'_>, number: usize) -> &'static str {
    let posted = &model.constraints().posted;
    if 1 <= number && number <= posted.len() && posted[number - 1].known.is_some() {
        BOUND_EXPONENT
    } else {
        USE_LIBRARY
    }
}

fn note(alloc: Global, message: &mut Message, told: &str) -> Result<(), AllocError> {
    message.note(Phrase::of_words(alloc, told)?)
}

/// The same, of a block that lacks a value. A constraint that isn't known is mostly the cause, so
/// the first one of the model is named.
fn note_help_on_value(reading: &Reading, message: &mut Message) -> Result<(), AllocError> {
    let alloc = reading.alloc;
    if let Some((number, name)) = first_unknown(reading.model) {
        let mut told = Phrase::of_words(alloc, "constraint ")?;
        told.number(number)?;
        told.words(" ")?;
        told.shown(name)?;
        told.words(" isn't known, which may be why")?;
        message.note(told)?;
        note(alloc, message, USE_LIBRARY)?;
    }
    let told = match reading.completion {
        Completion::On => PRINT_ALL,
        Completion::Off => LOOK_FOR_IT,
    };
    note(alloc, message, told)
}

/// The number, from 1, and the name of the first constraint that isn't known.
fn first_unknown<'a>(model: &Model<'a>) -> Option<(usize, &'a [u8])> {
    for (index, posted) in model.constraints().posted.iter().enumerate() {
        if posted.known.is_none() {
            return Some((index + 1, posted.name));
        }
    }
    None
}
