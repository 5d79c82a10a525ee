//! The relations of FlatZinc's builtins, each exactly as THE TABLE (`fz_meaning`'s `Builtins`) has
//! it: over numbers and sets, and over the elements of arrays under a partial assignment. Before
//! them, the argument view of a constraint (`ArgumentView`): its arguments under a partial
//! assignment, scalars and the elements of arrays, read as integers, Booleans and sets, and whether
//! all of them can be read as the constraint's row asks. An internal crate of `fz_model`:
//! `fz_builtins` decides with these relations whether a row holds, and `fz_model` which value it
//! leaves.
//!
//! Numbers go in as 64 bits and are computed with exactly: nothing wraps, and only a sum of
//! products can leave 128 bits, which the result says. Some relations of sets take memory, and so
//! does [`arrays::all_elements_different`] over a long array.
//!
//! Its worked cases are in `tests/cases` (`builtins.txt`).
#![tactic(auto)]

pub mod arrays;
pub mod distinct;
mod elements;
pub mod indices;
pub mod numbers;
mod reading;
pub mod sets;
mod slots;
mod view;

pub use elements::Elements;
pub use reading::Readiness;
pub use view::ArgumentView;
