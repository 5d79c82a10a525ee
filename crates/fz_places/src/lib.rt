//! Where things of a FlatZinc model are from, by what the MiniZinc compiler wrote of it: what
//! annotations say, the element of a printed array that a name is, the place in the model that a
//! path leads to, and the compiler's table of names. Beside these the lines and characters of a
//! text. An internal crate of `fz_explain`.
#![tactic(auto)]

mod annotation;
mod element;
mod lines;
mod names;
mod path;

pub use annotation::text_of;
pub use element::{Element, element_of, indices_of};
pub use fz_meaning::{IntSet, Range, Value};
pub use lines::{Spot, spot_of};
pub use names::{NameLine, NameTable, TableError};
pub use path::{ModelPlace, model_place};
