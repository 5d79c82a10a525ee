//! Models of FlatZinc: what they mean, loading them, and what a point says under a partial
//! assignment. It also offers what the crates above use of its internal ones: `fz_meaning` has the
//! definitions, the table of builtins and the laws, `fz_store` the loaded model, and `fz_data`
//! loads it; `fz_kernel` reads the arguments of a constraint, and has the relations of the
//! builtins, `fz_globals` and `fz_scheduling` those of the global constraints; `fz_builtins` tells
//! whether a row of THE TABLE holds.
//!
//! The state of a point: whether a domain, a definition or a constraint holds, fails or cannot be
//! told (`state`); and whether all points hold (`all_hold`), which an `Overview` of the model makes
//! quick.
//!
//! The forced step of a point (`forced`): the one value that the point leaves to the only variable
//! in it without a value. A domain of one number gives that number; a definition gives the value of
//! either side to the other; a constraint gives its defined variable the value that its row leaves:
//! the one value of the argument's kind, an integer of 64 bits among them, with which the row
//! holds. `opening_of` tells what a constraint waits for before. By `forced_any` a constraint may
//! give a value to each variable that `defines_var` might name.
//!
//! Its worked cases are in `tests/cases` (`builtins.txt`, `calls.txt`).
#![tactic(auto)]

mod constraints;
mod domains;
mod holding;
mod numbers;
mod only;
mod overview;
mod points;
mod row;
mod step;
mod unit;
mod value;
mod whole;

pub use fz_data::{LoadError, literal_kind, literal_value, load, load_text};
pub use fz_store::{
    Argument, Domain, Found, Goal, IntSet, Kind, Model, ModelError, Partial, Point, PointParts,
    Posted, Scalar, Scalars, State, Term, Value, Variable, What,
};
pub use holding::{all_hold, is_held};
pub use only::{Opening, Spot, opening_of};
pub use overview::Overview;
pub use points::state;
pub use step::{forced, forced_any, only_number};
