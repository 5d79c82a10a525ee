//! What is said of a verdict.

use crate::case::Case;
use crate::excerpt::push_shown;
use fz_filling::{Fault, Reason, Verdict};
use fz_store::Point;
use std::alloc::{AllocError, Global};

/// The sentence of a message on the verdict of a case.
pub(crate) fn sentence(alloc: Global, case: &Case<'_, '_>) -> Result<String, AllocError> {
    let mut text = String::new(alloc);
    push_sentence(&mut text, case)?;
    Ok(text)
}

/// The sentence of a message on a point that fails in the block of this number.
pub(crate) fn point_sentence(
    alloc: Global,
    point: &Point<'_>,
    number: usize,
) -> Result<String, AllocError> {
    let fault = match *point {
        Point::Domain(name) => Fault::Domain(name),
        Point::Definition(name) => Fault::Definition(name),
        Point::Constraint(number, name) => Fault::Constraint(number, name),
    };
    let mut text = String::new(alloc);
    push_fault(&mut text, fault)?;
    write!(text, " in block {number}")?;
    Ok(text)
}

fn push_sentence(text: &mut String, case: &Case<'_, '_>) -> Result<(), AllocError> {
    match case.verdict {
        Verdict::Satisfied => text.push_str("satisfied")?,
        Verdict::Violated(fault) => push_fault(text, fault)?,
        Verdict::Undecided(reason) => push_undecided(text, reason)?,
    }
    let number = case.number;
    write!(text, " in block {number}")
}

fn push_fault(text: &mut String, fault: Fault<'_>) -> Result<(), AllocError> {
    match fault {
        Fault::Printed(name) => push_shown(text, "printed ", name, " differs"),
        Fault::Domain(name) => push_shown(text, "domain of ", name, " fails"),
        Fault::Definition(name) => push_shown(text, "definition of ", name, " fails"),
        Fault::Constraint(number, name) => {
            write!(text, "constraint {number} ")?;
            push_shown(text, "", name, " fails")
        }
        Fault::NotBetter(now, before) => {
            write!(text, "objective {now} not better than {before}")
        }
    }
}

fn push_undecided(text: &mut String, reason: Reason<'_>) -> Result<(), AllocError> {
    match reason {
        Reason::NoValue(name) => push_shown(text, "no value for ", name, ""),
        Reason::Unknown(number, name) => {
            write!(text, "constraint {number} ")?;
            push_shown(text, "", name, " not known")
        }
        Reason::TooLarge(number) => write!(text, "constraint {number} too large"),
        Reason::NotShownBetter(now, before) => {
            write!(text, "objective {now} not shown better than {before}")
        }
    }
}
