//! Why a tree is no model.

ghost use Rattle.std.specs.Prelude.{◌≡◌};

use fz_tree::Span;
use std::alloc::{AllocError, AllocFailed};
use thiserror::Error;

/// Why a tree is no model: the first fault of its names, kinds and lengths, or that memory ran out.
#[derive(Clone, Copy, Debug, PartialEq, Eq, Error)]
pub enum ModelError {
    /// A name is declared a second time.
    #[error("DuplicateName")]
    DuplicateName(Span),
    /// A name is used that no earlier item declares.
    #[error("UnknownName")]
    UnknownName(Span),
    /// A literal or a name is of another kind than is wanted there.
    #[error("Kind")]
    Kind(Span),
    /// An array has another number of elements than its declared length.
    #[error("Length")]
    Length(Span),
    #[error("Memory")]
    Memory,
}

impl From<AllocError> for ModelError {
    ghost use Rattle.fz_meaning.specs.declared.error.ModelError.TheVariants.{Memory};

    ghost from_gives = { λ _ e. e ≡ Memory };

    fn from(_e: AllocError) -> ModelError {
        ModelError::Memory
    }
}

impl<T: Drop> From<AllocFailed<T>> for ModelError {
    ghost use Rattle.fz_meaning.specs.declared.error.ModelError.TheVariants.{Memory};

    ghost from_gives = { λ _ e. e ≡ Memory };

    fn from(_e: AllocFailed<T>) -> ModelError {
        ModelError::Memory
    }
}
