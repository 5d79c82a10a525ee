//! What the blocks of a stream come to against a model, but for the search for values: the fault of
//! a block, its filling, and the parts of the verdict on it. The filling is the chain of forced
//! steps. Where they come to the same in any order, points are tried behind those that give what
//! they wait for; one search through the points finds the rest. Where values that a solver left out
//! are looked for, a second filling goes on from there, by whichever result a row has. An internal
//! crate of `fz_check`.
//!
//! What a verdict or an accepted stream means for solutions is defined in `specs/`, and told by the
//! laws in `laws.rt`. Worked cases are in `tests/cases`.
#![tactic(auto)]

mod chain;
mod completion;
mod course;
mod error;
mod faults;
mod filling;
mod further;
mod laws;
mod lone;
mod points;
mod printed;
mod start;
mod steps;
mod values;
mod verdict;

pub use completion::Completion;
pub use course::Course;
pub use error::BlockError;
pub use filling::{fill, fill_with_steps, filled};
pub use fz_stream::{
    Ast, Block, Claim, ClaimKind, Decl, Limits, Name, Note, Part, Span, Splitter, Stream,
    StreamError, SyntaxError, blocks, parse_within, to_text,
};
pub use laws::{
    accepted_are_judged, accepted_have_solutions, completed_keep_verdicts,
    each_not_better_has_none, each_satisfied_has_one, each_violated_has_none, filling_follows,
    filling_is_one, filling_is_proposed, fit_without_fault, not_better_have_none,
    satisfied_is_solved, violated_have_none,
};
pub use points::{fault_named, objective, objective_fails, points_verdict};
pub use printed::printed_fails;
pub use steps::Giver;
pub use verdict::{Fault, Reason, Verdict};
