//! Bounds of a model's variables, and points that cannot hold within them. A search proposes which
//! point takes which values from a variable (`Bounds::tighten`), and what is told of it is proved:
//! each assignment inside the old bounds under which the point holds lies inside the new ones. So a
//! search that leaves a variable nothing shows that no solution has the values that it began with.
//! An internal crate of `fz_check`.
//!
//! Nothing promises that a point which cannot hold is found out.
#![tactic(auto)]

mod bins;
mod bounded;
mod bounds;
mod boxes;
mod builtins;
mod cardinality;
mod declarations;
mod different;
mod domains;
mod elements;
mod enclosing;
mod ends;
mod inverses;
mod knapsacks;
mod lexical;
mod members;
mod opened;
mod order;
mod outlook;
mod quotients;
mod range;
mod refuting;
mod replacing;
mod rows;
mod tables;
mod tasks;
mod tightening;
mod tours;

pub use bounds::Bounds;
pub use ends::{KindEnds, number_as};
pub use outlook::Outlook;
pub use range::Range;
pub use refuting::cannot_hold;
pub use tightening::Tightened;
