//! What the program reads and writes: a file up to a limit of bytes (`read_up_to`), why it can't be
//! read (`failure_text`), a reader that stores the last of what it gave (`Recorder`), a line that
//! shows how far a check is (`Progress`), colours on a terminal (`coloured`), and lines of JSON
//! (`Object`).
//!
//! Tests are in `tests/program` and `tests/explained`.
#![tactic(auto)]

mod colour;
mod failure;
mod files;
mod object;
mod progress;
mod recent;

pub use colour::{coloured, has_colours};
pub use failure::{failure_text, find_input};
pub use files::{ReadError, read_up_to};
pub use object::Object;
pub use progress::Progress;
pub use recent::{NOTHING, Passed, Recent, Recorder};
