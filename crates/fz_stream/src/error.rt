//! Why a stream is refused.

ghost use Rattle.std.specs.Prelude.{◌≡◌, ◌≤◌, ◌+◌, ◌-◌};
ghost use Rattle.fz_syntax.specs.Places.{IsSpanWithin, IsPlacedWithin};
ghost use Rattle.fz_stream.specs.Moving.{moved_span, item_fault};

use fz_syntax::{Span, SyntaxError};
use std::alloc::{AllocError, AllocFailed};
use thiserror::Error;

/// Why a stream is refused. Each byte range counts from the stream's first byte.
#[derive(Clone, Copy, Debug, PartialEq, Eq, Error)]
pub enum StreamError {
    /// The stream is too long to be read whole, or a splitter would hold or take too many bytes.
    #[error("TooLong")]
    TooLong,
    /// The text of a block isn't one of printed items. The fault in it is neither `Memory` nor
    /// `TooLong`.
    #[error("{0}")]
    Item(SyntaxError),
    /// A block prints a name twice: the byte range of the second printing.
    #[error("DuplicateName")]
    DuplicateName(Span),
    /// A claim is inside an open block, or the stream ends inside one: the bytes from the block's
    /// first byte to the first byte of the claim's line, or to the stream's end.
    #[error("Unfinished")]
    Unfinished(Span),
    /// Out of memory.
    #[error("Memory")]
    Memory,
    /// The splitter has failed in an earlier call.
    #[error("Failed")]
    Failed,
}

impl<T: Drop> From<AllocFailed<T>> for StreamError {
    ghost use Rattle.fz_stream.specs.declared.error.StreamError.TheVariants.{Memory};

    ghost from_gives = { λ _ e. e ≡ Memory };

    fn from(_: AllocFailed<T>) -> StreamError {
        StreamError::Memory
    }
}

impl From<AllocError> for StreamError {
    ghost use Rattle.fz_stream.specs.declared.error.StreamError.TheVariants.{Memory};

    ghost from_gives = { λ _ e. e ≡ Memory };

    fn from(_: AllocError) -> StreamError {
        StreamError::Memory
    }
}

/// The byte range in the stream of a byte range in a text that begins at the offset: both ends are
/// moved by the offset. The ranges of a block's items are in the block's text, which begins at
/// `Block::offset`.
pub fn moved_span(span: Span, offset: usize) -> Span
    requires { IsSpanWithin (usize.MAX - offset) span }
    ensures { result ≡ moved_span offset span }
{
    Span {
        start: offset + span.start,
        end: offset + span.end,
    }
}

/// The fault of a text that begins at the offset, as one of the stream.
pub fn item_fault(error: SyntaxError, offset: usize) -> StreamError
    requires { IsPlacedWithin (usize.MAX - offset) error }
    ensures { result ≡ item_fault offset error }
{
    match error {
        SyntaxError::Memory => StreamError::Memory,
        SyntaxError::TooLong => StreamError::Item(error),
        SyntaxError::BadByte(span) => {
            StreamError::Item(SyntaxError::BadByte(moved_span(span, offset)))
        }
        SyntaxError::TooLarge(span) => {
            StreamError::Item(SyntaxError::TooLarge(moved_span(span, offset)))
        }
        SyntaxError::Float(span) => {
            StreamError::Item(SyntaxError::Float(moved_span(span, offset)))
        }
        SyntaxError::Syntax(span) => {
            StreamError::Item(SyntaxError::Syntax(moved_span(span, offset)))
        }
        SyntaxError::TooDeep(span) => {
            StreamError::Item(SyntaxError::TooDeep(moved_span(span, offset)))
        }
        SyntaxError::TooMany(span) => {
            StreamError::Item(SyntaxError::TooMany(moved_span(span, offset)))
        }
    }
}
