//! Why a text is refused.

ghost use Rattle.std.specs.Prelude.{◌≡◌};

use crate::span::Span;
use std::alloc::{AllocError, AllocFailed};
use thiserror::Error;

/// Why a text is refused. Its byte range counts from the first byte of the text that was passed in.
#[derive(Clone, Copy, Debug, PartialEq, Eq, Error)]
pub enum SyntaxError {
    /// It has more bytes than its limits allow.
    #[error("TooLong")]
    TooLong,
    /// No blank, comment or token begins at this byte.
    #[error("BadByte")]
    BadByte(Span),
    /// This integer needs more than 64 bits.
    #[error("TooLarge")]
    TooLarge(Span),
    /// A float, or the word `float`, where none is allowed.
    #[error("Float")]
    Float(Span),
    /// A token that the grammar doesn't allow here; at the end of the text, an empty span.
    #[error("Syntax")]
    Syntax(Span),
    /// The name of an annotation at depth 33.
    #[error("TooDeep")]
    TooDeep(Span),
    /// An element past the last that the limits allow in a list, or a size above theirs.
    #[error("TooMany")]
    TooMany(Span),
    /// Out of memory.
    #[error("Memory")]
    Memory,
}

impl From<AllocError> for SyntaxError {
    ghost use Rattle.fz_tree.specs.declared.error.SyntaxError.TheVariants.{Memory};

    ghost from_gives = { λ _ e. e ≡ Memory };

    fn from(_e: AllocError) -> SyntaxError {
        SyntaxError::Memory
    }
}

impl<T: Drop> From<AllocFailed<T>> for SyntaxError {
    ghost use Rattle.fz_tree.specs.declared.error.SyntaxError.TheVariants.{Memory};

    ghost from_gives = { λ _ e. e ≡ Memory };

    fn from(_e: AllocFailed<T>) -> SyntaxError {
        SyntaxError::Memory
    }
}
