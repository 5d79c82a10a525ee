//! The relations of global constraints that order, count and arrange, each exactly as
//! `fz_meaning`'s `Relations` has it, over the elements of arrays under a partial assignment; those
//! of scheduling and packing are in `fz_scheduling`. An internal crate of `fz_model`: `fz_builtins`
//! and `fz_model` use these relations as they use those of `fz_kernel`.
//!
//! Numbers go in as 64 bits and are computed with exactly: nothing wraps. Relations that sort
//! numbers take memory.
//!
//! Its worked cases are in `tests/cases` (`builtins.txt`).
#![tactic(auto)]

pub mod best_index;
pub mod channels;
pub mod chosen;
pub mod convex;
pub mod counts;
pub mod cover;
mod firsts;
pub mod flags;
mod indices;
pub mod order;
mod ordered;
pub mod partition;
pub mod precedence;
pub mod tables;
mod testing;
pub mod tours;

pub use flags::has;
pub use indices::{are_indices, index_at, place_from};
pub use ordered::numbers_in_order;
