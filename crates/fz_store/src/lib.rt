//! The loaded model of a tree, with each name looked up once (`Model`), and values of its variables
//! by their numbers (`Partial`). A model stores the scalars of its constraints and arrays as slots
//! of eight bytes (`Store`). An internal crate of `fz_data`, which loads models, and of `fz_model`,
//! which offers all of it. The table of declared names is here too (`Names`).
//!
//! Its worked cases are in `tests/cases` (`calls.txt`).
#![tactic(auto)]

mod found;
mod model;
mod names;
mod numbered;
mod partial;
mod parts;
mod point;
mod scope;
mod store;
mod values;

pub use found::{Found, Scalars, What};
pub use fz_meaning::{
    Builtin, Domain, Filled, Form, IntSet, Kind, Known, Matrix, ModelError, SetError, Shape, State,
    Term, Value, Wide, same_text,
};
pub use model::{Model, assembled};
pub use names::{Names, Standing};
pub use partial::{Partial, number_of, truth_of};
pub use parts::{Array, DeclaredPoint, Goal, Posted, ScalarList, Variable};
pub use point::{ConstraintParts, Constraints, Point, PointParts};
pub use scope::Scope;
pub use store::{
    Argument, Scalar, Segment, Slot, Store, item_at, narrow, part, scalar_at, slot_of, value_slot,
};
pub use values::{kind_of, same_kind};
