//! Why a constraint fails, in values: what can be checked by hand, such as two elements that are
//! equal where all have to differ. A `Reason` is data; `Says` of `specs/` tells what each kind of
//! reason says of the values of the arguments, and that a row fails by each of its reasons is a
//! law. `reason_at` puts the reason of a point into words, of which no contract speaks.
#![tactic(auto)]

mod arrangement_words;
mod automata;
mod covers;
mod element_words;
mod loads;
mod members;
mod negatives;
mod orders;
mod pairs;
mod places;
mod readings;
mod reason;
mod results;
mod rings;
mod rows;
mod sides;
mod sum_words;
mod tasks;
mod teller;
mod term_words;
mod told;
mod tours;
mod words;

pub use reason::{
    BinLoad, Boxes, Clash, Count, Difference, Early, Element, ElementKind, Load, Member, NearRow,
    Negative, Neighbours, NoIndex, NoStep, OneWay, Operands, OtherNumber, OtherTruth, Overlap,
    Quantity, Reason, Relation, Ring, Run, Sides, Stretch, Total, Why,
};
pub use rows::{a_form_fails_by_its_reason, a_row_fails_by_its_reason, why};
pub use told::{Piece, Told, Who};
pub use words::{giving_at, reason_at};
