//! Why a block cannot be judged.

use fz_stream::Span;
use std::alloc::{AllocError, AllocFailed};
use thiserror::Error;

/// Why a block cannot be judged: its first fault against the model, or that memory ran out. Spans
/// count from the stream's first byte.
#[derive(Clone, Copy, Debug, PartialEq, Eq, Error)]
pub enum BlockError {
    /// A printed name is not declared.
    #[error("UnknownName")]
    UnknownName(Span),
    /// A printed value is of another kind than its name.
    #[error("Kind")]
    Kind(Span),
    /// A printed array has another number of elements than its name.
    #[error("Length")]
    Length(Span),
    #[error("Memory")]
    Memory,
}

impl From<AllocError> for BlockError {
    ghost use Rattle.std.specs.Prelude.{◌≡◌};
    ghost use Rattle.fz_filling.specs.declared.error.BlockError.TheVariants.{Memory};

    ghost from_gives = { λ _ e. e ≡ Memory };

    fn from(_e: AllocError) -> BlockError {
        BlockError::Memory
    }
}

impl<T: Drop> From<AllocFailed<T>> for BlockError {
    ghost use Rattle.std.specs.Prelude.{◌≡◌};
    ghost use Rattle.fz_filling.specs.declared.error.BlockError.TheVariants.{Memory};

    ghost from_gives = { λ _ e. e ≡ Memory };

    fn from(_e: AllocFailed<T>) -> BlockError {
        BlockError::Memory
    }
}
