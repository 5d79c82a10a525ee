//! What is behind a verdict on a block, or a refusal, for a person to act on. Data under contracts
//! are the point that a verdict is about, the variables in that point, and where the value of each
//! comes from. Messages in the form of a compiler's show these: an `Explainer` explains the
//! verdicts on blocks, `message_at` shows a byte range of a file or a stream. No contract speaks of
//! their words and layout, which `tests/explained` tests.
#![tactic(auto)]

mod amounts;
mod binding;
mod bounds;
mod case;
mod chain;
mod differing;
mod domain;
mod excerpt;
mod explained;
mod failing;
mod fixed;
mod help;
mod message;
mod naming;
mod notes;
mod parts;
mod past;
mod place;
mod printed;
mod quoting;
mod refutation;
mod remarks;
mod scalars;
mod sentence;
mod source;
mod sums;
mod variables;
mod verdict;

pub use amounts::MOST_RANGES;
pub use binding::Unbound;
pub use bounds::Bounds;
pub use case::{Case, Explainer};
pub use differing::first_differing;
pub use domain::declared_domain;
pub use explained::{Explained, Explanation, explain};
pub use failing::{Sought, failing_points, first_point};
pub use fixed::{Fixing, fixing_of};
pub use fz_filling::Giver;
pub use fz_index::Refutation;
pub use fz_places::{
    Element, ModelPlace, NameLine, NameTable, Range, Spot, TableError, Value, element_of,
    model_place, spot_of,
};
pub use fz_store::Kind;
pub use message::{Message, Text, message_at};
pub use notes::{FixedNote, Known, Note, Origin};
pub use parts::{Part, PartKind, Phrase};
pub use place::point_place;
pub use quoting::{Quote, Source as ModelSource};
pub use remarks::Remarks;
pub use source::{Source, sources_are_earlier};
pub use sums::too_large_at;
pub use variables::variables_of;
pub use verdict::Faults;
