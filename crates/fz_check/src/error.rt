//! The errors of a check.

ghost use Rattle.std.specs.Prelude.{◌≡◌};
ghost use Rattle.fz_check.specs.Telling.{stream_refusal};

use fz_filling::BlockError;
use fz_store::ModelError;
use fz_stream::{StreamError, SyntaxError};
use std::alloc::{AllocError, AllocFailed};
use thiserror::Error;

/// Why a check has no report.
#[derive(Clone, Copy, Debug, PartialEq, Eq, Error)]
pub enum CheckError {
    /// The model's bytes are not a text of any tree.
    #[error("model: {0}")]
    Model(SyntaxError),
    /// The model's tree has a fault of names; this is the first.
    #[error("model: {0}")]
    Names(ModelError),
    /// The stream's bytes are not a text of blocks and claims.
    #[error("stream: {0}")]
    Stream(StreamError),
    /// The block with this number, from 1, doesn't fit the model; this is its first fault.
    #[error("block {0}: {1}")]
    Block(usize, BlockError),
    #[error("memory")]
    Memory,
    /// A read failed, or as many were made as may be.
    #[error("read")]
    Read,
    /// A write failed, or took nothing.
    #[error("write")]
    Write,
}

/// The error of a check for an error in its stream.
pub(crate) fn stream_refusal(error: StreamError) -> CheckError
    ensures { result ≡ stream_refusal error }
{
    match error {
        StreamError::Memory => CheckError::Memory,
        error => CheckError::Stream(error),
    }
}

impl From<AllocError> for CheckError {
    ghost use Rattle.std.specs.Prelude.{◌≡◌};
    ghost use Rattle.fz_check.specs.declared.error.CheckError.TheVariants.{Memory};

    ghost from_gives = { λ _ e. e ≡ Memory };

    fn from(_e: AllocError) -> CheckError {
        CheckError::Memory
    }
}

impl<T: Drop> From<AllocFailed<T>> for CheckError {
    ghost use Rattle.std.specs.Prelude.{◌≡◌};
    ghost use Rattle.fz_check.specs.declared.error.CheckError.TheVariants.{Memory};

    ghost from_gives = { λ _ e. e ≡ Memory };

    fn from(_e: AllocFailed<T>) -> CheckError {
        CheckError::Memory
    }
}
