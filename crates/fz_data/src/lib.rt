//! Loading a model: of a tree (`load`), or of a text item by item (`load_text`). What is loaded is
//! a `Model` of `fz_store`. An internal crate of `fz_model`, which offers all of it.
//!
//! Its worked cases are in `tests/cases` (`calls.txt`) and `tests/broken`.
#![tactic(auto)]

mod declaring;
mod error;
mod loading;
mod posting;
mod rows;
mod scope;
mod text;
mod values;

pub use error::LoadError;
pub use loading::load;
pub use text::load_text;
pub use values::{literal_kind, literal_value};
