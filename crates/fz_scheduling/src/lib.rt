//! The relations of the global constraints of scheduling and packing, each exactly as
//! `fz_meaning`'s `Relations` has it: tasks, boxes, bins and knapsacks; and of those that go along
//! arrays as these do: sums of neighbours, lexicographic order, words of an automaton. An internal
//! crate of `fz_model`: `fz_builtins` uses these relations as it uses those of `fz_globals`.
//!
//! Numbers go in as 64 bits and are computed with exactly: nothing wraps, and only the sums of
//! products of a knapsack can leave 128 bits, which the result says.
//!
//! Its worked cases are in `tests/cases` (`builtins.txt`).
#![tactic(auto)]

pub mod bins;
pub mod boxes;
pub mod lexical;
pub mod packed;
mod reading;
pub mod slides;
mod spans;
pub mod tasks;
pub mod weights;
pub mod words;

pub use spans::runs_at;
