//! What a search knows of a model (`Search`): which variables are in each point, the linear row
//! that it is, if it is one, and in which points a variable is. Beside it the order in which points
//! are tried (`order_of`), and what a refutation by bounds tells. Of all this no contract speaks:
//! it only proposes. An internal crate of `fz_check`.
#![tactic(auto)]

mod arguments;
mod builder;
mod ends;
mod index;
mod order;
mod refutation;
mod relations;
mod row;

pub use ends::{End, Ends};
pub use index::{Search, known_of};
pub use order::order_of;
pub use refutation::{Left, Narrower, Narrowing, Refutation};
pub use row::{Place, Product, Relation, Row, Sums, Visit};
