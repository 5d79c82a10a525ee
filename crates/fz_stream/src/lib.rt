//! Streams of solver output: cuts them at their lines into solution blocks and claims, and reads
//! what each block prints. `blocks` reads a whole stream; a `Splitter` is fed one in pieces, cuts
//! off one block or claim at a time, within a limit of bytes, and reads a block as it lends it.
//! Whether a block is a solution isn't asked here.
//!
//! Its worked cases are in `tests/cases` (`reports.txt`, `calls.txt`).
#![tactic(auto)]

ghost use Rattle.fz_stream.specs.Laws.{StreamHasOneListOfParts};

mod block;
mod error;
mod hashing;
mod held;
mod line;
mod reading;
mod splitter;
mod step;

pub use block::Block;
pub use error::{StreamError, moved_span};
pub use fz_syntax::{
    Ast, Decl, Limits, Literal, LiteralKind, Name, Note, Printed, PrintedValue, Span, SyntaxError,
    parse_within, to_text,
};
pub use line::ClaimKind;
pub use reading::{Claim, Stream, blocks};
pub use splitter::{Frame, Part, Splitter};

/// A stream's bytes are a text of one list of blocks and claims, if of any.
pub fn stream_has_one_list_of_parts()
    ensures { StreamHasOneListOfParts }
{}
