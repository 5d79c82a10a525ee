//! What the words of the command line ask of a check.

use fz_check::{Claims, Completion, Ending, Limits, Options};
use fz_command::{Check, Size};

/// Whether blocks are completed by steps.
pub fn completion_of(completes: bool) -> Completion {
    if completes {
        Completion::On
    } else {
        Completion::Off
    }
}

/// The limits of a model, and of the blocks of its streams.
pub fn limits_of(size: Size) -> Limits {
    match size {
        Size::Standard => Limits::STANDARD,
        Size::Large => Limits::LARGE,
    }
}

/// How a stream is checked, where claims are judged in this way.
pub fn options_of<'k>(asked: &Check<'_>, claims: Claims<'k>) -> Options<'k> {
    Options {
        completion: completion_of(asked.completes),
        steps: asked.steps.unwrap_or(Options::STANDARD.steps),
        ending: if asked.cuts {
            Ending::Cut
        } else {
            Ending::Whole
        },
        claims,
        limits: limits_of(asked.size),
    }
}
