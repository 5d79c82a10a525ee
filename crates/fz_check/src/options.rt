//! How a stream is checked.

use crate::claims::Claims;
use crate::judge::STEPS;
use fz_filling::Completion;
use fz_stream::Limits;

/// What becomes of a stream that ends inside a block, such as that of a solver that was killed.
#[derive(Clone, Copy, PartialEq, Eq)]
pub enum Ending {
    /// It is refused.
    Whole,
    /// The block is cut off, and what comes before it is judged.
    Cut,
}

/// How a stream is checked.
#[derive(Clone, Copy)]
pub struct Options<'k> {
    /// Whether values are searched for that the solver left out.
    pub completion: Completion,
    /// The most steps of a search for values, each time that it goes through a tree, and 100 more
    /// for each point of the model and each scalar in it. One that proves a claim may take ten
    /// times as many.
    pub steps: usize,
    pub ending: Ending,
    pub claims: Claims<'k>,
    /// The limits of the model's text, and of the text of a block with the line after it.
    pub limits: Limits,
}

impl Options<'static> {
    /// No value is searched for, nothing is cut off, no claim is judged, and the limits are the
    /// standard ones.
    pub const STANDARD: Options<'static> = Options {
        completion: Completion::Off,
        steps: STEPS,
        ending: Ending::Whole,
        claims: Claims::NotJudged,
        limits: Limits::STANDARD,
    };
}
