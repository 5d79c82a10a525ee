//! The command line of the program: what its words ask for (`read_words`), the usage line, the help
//! page and the version.
//!
//! Tests are in `tests/program`.
#![tactic(auto)]

mod pages;
mod words;

pub use pages::{HELP, USAGE, VERSION};
pub use words::{
    Check, Explaining, Form, Judging, Printing, Refused, Request, Show, Size, read_words,
};
