//! The rows that have a result, which the other arguments determine.

ghost use Rattle.std.specs.Prelude.{◌≡◌, IfOk, IfSome};
ghost use Rattle.fz_builtins.specs.of_meaning.Relations.{◌=ℤ◌, ◌=ᴮ◌};
ghost use Rattle.fz_builtins.specs.of_kernel.Views.{arguments_of, assigned};
ghost use Rattle.fz_builtins.specs.Said.{is_result};
ghost use Rattle.fz_reasons.specs.Reasons.{Says};

use crate::reason::{OtherNumber, OtherTruth, Reason};
use fz_builtins::{Said, said_of};
use fz_kernel::ArgumentView;
use fz_store::{Builtin, SetError};
use std::alloc::{AllocError, Global};

/// The result of a row that has one, a number or a Boolean, where the argument has another value.
#[tactic(auto, unfolding(crate::specs::Reasons::Says))]
pub(crate) fn by_result(
    alloc: Global,
    builtin: Builtin,
    view: &ArgumentView<'_, '_>,
) -> Result<Option<Reason>, AllocError>
    ensures { IfOk result (λ o. IfSome o
        (Says builtin (assigned view.now) (arguments_of view.now))) }
{
    match said_of(alloc, builtin, false, view) {
        Ok(Said::Number(argument, wanted)) => {
            let value = view.int(argument);
            if is_number(wanted, value) {
                return Ok(None);
            }
            Ok(Some(Reason::Number(OtherNumber {
                argument,
                value,
                wanted,
            })))
        }
        Ok(Said::Boolean(argument, wanted)) => {
            let value = view.truth(argument);
            if is_truth(wanted, value) {
                return Ok(None);
            }
            Ok(Some(Reason::Truth(OtherTruth {
                argument,
                value,
                wanted,
            })))
        }
        Ok(Said::Whether(_) | Said::Set(_, _) | Said::Given(_, _)) => Ok(None),
        Err(SetError::Memory) => Err(AllocError),
    }
}

fn is_number(wanted: Option<i128>, value: i64) -> bool
    ensures { result ≡ is_result ◌=ℤ◌ wanted value }
{
    match wanted {
        Some(wanted) => i128::from(value) == wanted,
        None => false,
    }
}

fn is_truth(wanted: Option<bool>, value: bool) -> bool
    ensures { result ≡ is_result ◌=ᴮ◌ wanted value }
{
    match wanted {
        Some(wanted) => value == wanted,
        None => false,
    }
}
