//! The builtins of THE TABLE: whether a builtin's row holds of the values that an argument view
//! gives, or that a sum of it leaves 128 bits (`of_builtin`); and which value its result has, by
//! the other arguments (`said_of`). A row over arrays has a function that reads its arguments, and
//! asks `fz_kernel`, `fz_globals` or `fz_scheduling` for the relation. An internal crate of
//! `fz_model`.
//!
//! Its worked cases are in `tests/cases` (`builtins.txt`).
#![tactic(auto)]

mod arrays;
mod builtins;
mod counting;
mod covers;
mod flags;
mod forms;
mod ordering;
mod outcome;
mod places;
mod said;
mod scalars;
mod scheduling;
mod sums;

pub use builtins::{of_builtin, said_of};
pub use forms::{control, control_index};
pub use outcome::Outcome;
pub use said::Said;
pub use sums::{is_unknown, leaves};
