//! Why the next token is refused.

ghost use Rattle.std.specs.Prelude.{◌≡◌};
ghost use Rattle.fz_syntax.specs.declared.parser.refusal.Refusal.TheVariants.{Memory};

use std::alloc::{AllocError, AllocFailed};

/// Why a method of the parser gives up. The refused token is the next one, so no byte range is
/// stored.
#[derive(Clone, Copy)]
pub(crate) enum Refusal {
    Float,
    Syntax,
    TooDeep,
    TooMany,
    Memory,
}

impl From<AllocError> for Refusal {
    ghost from_gives = { λ _ e. e ≡ Memory };

    fn from(_e: AllocError) -> Refusal {
        Refusal::Memory
    }
}

impl<T: Drop> From<AllocFailed<T>> for Refusal {
    ghost from_gives = { λ _ e. e ≡ Memory };

    fn from(_e: AllocFailed<T>) -> Refusal {
        Refusal::Memory
    }
}
