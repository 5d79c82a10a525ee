//! What the values of the checker are: finite sets of integers ([`IntSet`]) and the values of
//! FlatZinc over int, bool and set ([`Value`]).
//!
//! A set of numbers from 0 to 63 is stored as the bits of a word, any other as ranges of 64-bit
//! numbers, so `1..1000000000` takes no more memory than `1..100`. A set has no limit but memory.
//! Calls that make a set take an allocator and refuse only where memory runs out; calls that ask
//! something of a set take no memory and always succeed.
//! Its worked cases are in `tests/cases` (`calls.txt`).
#![tactic(auto)]

mod bits;
mod kept;
mod ranges;
mod sets;
mod value;

pub use ranges::Range;
pub use sets::{IntSet, SetError};
pub use value::Value;
