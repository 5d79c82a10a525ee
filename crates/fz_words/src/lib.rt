//! What is wrong with a text, in words (`Refused`): what a file is that is no model or no stream,
//! where that can be seen, and what the grammar expected at a fault. That a text is refused, and
//! where, is the parser's; nothing rests on what is said.
//!
//! Tests are in `tests/explained` and `tests/program`.
#![tactic(auto)]

mod expected;
mod looks;
mod text;

pub use text::{Given, Refused, meaning};
