//! What a FlatZinc model means: names, the table of builtins, points and their states, forced
//! steps, and the first fault of names. An internal crate of `fz_model`, which offers all of it.
//!
//! The table of builtins is data here too. [`Known::find`] says what a constraint's name means: a
//! [`Builtin`], or a reified [`Form`] of it. A [`Known`] tells what its row asks: the kinds of its
//! arguments, which arrays have to be of equal lengths, which one has to have whole rows, which
//! numbers are computed in 128 bits, and which arguments may be filled. When a row holds is in the
//! definitions alone (`specs/Builtins.antt`).
//!
//! The worked cases of the table are in `tests/cases` (`builtins.txt`).
#![tactic(auto)]

mod builtin;
mod error;
mod kind;
mod known;
mod row;
mod state;
mod term;
mod text;

ghost use Rattle.fz_meaning.specs.Laws.{LocatedIsBare, NumbersAgree, StepsAreForced, UnknownIsNotKnown};

pub use builtin::Builtin;
pub use error::ModelError;
pub use fz_base::{IntSet, Range, SetError, Value};
pub use kind::Kind;
pub use known::{Form, Known};
pub use row::{Filled, Matrix, Shape, Wide};
pub use state::State;
pub use term::{Domain, Term};
pub use text::same_text;

/// A forced step's value is the only one with which its point holds.
pub fn steps_are_forced()
    ensures { StepsAreForced }
{}

/// The number of a scalar variable is its index in the list of the variables.
pub fn numbers_agree()
    ensures { NumbersAgree }
{}

/// The state is unknown exactly where the constraint fits no row, or has a power with a negative
/// exponent.
pub fn unknown_is_not_known()
    ensures { UnknownIsNotKnown }
{}

/// The located tree without its byte ranges is the parser's plain tree.
pub fn located_is_bare()
    ensures { LocatedIsBare }
{}
