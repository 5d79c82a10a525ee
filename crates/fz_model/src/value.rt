//! The value that a row leaves, whatever its kind.

ghost use Rattle.std.specs.Prelude.{◌≡◌, ℕ, List, length, nat_eq, IfOk, option_map};
ghost use Rattle.fz_builtins.specs.of_meaning.Builtins.{Row, reified, row_at};
ghost use Rattle.fz_builtins.specs.of_meaning.Known.{known_row};
ghost use Rattle.fz_builtins.specs.of_meaning.Meaning.{Argument, Partial};
ghost use Rattle.fz_builtins.specs.of_meaning.Results.{result_of};
ghost use Rattle.fz_builtins.specs.of_kernel.Views.{arguments_of, assigned};
ghost use Rattle.fz_builtins.specs.Said.{IsSaid};
ghost use Rattle.fz_model.specs.Left.{IsLeftIfComputed, IsPlaceOf};

use crate::numbers::narrowed;
use fz_builtins::{Outcome, Said, of_builtin, said_of};
use fz_kernel::ArgumentView;
use fz_store::{Builtin, Form, IntSet, Known, SetError, Value};
use std::alloc::{AllocError, Global};

/// The value that a row leaves to the argument at an index that `defines_var` may name, by the
/// values of the other arguments. None where a number of the row can't be computed. It refuses only
/// where memory runs out.
pub(crate) fn left_value(
    alloc: Global,
    known: Known,
    place: usize,
    view: &ArgumentView<'_, '_>,
) -> Result<Option<Value>, AllocError>
    requires result { IsPlaceOf (result_of (known_row known)) place }
    ensures { IfOk result (IsLeftIfComputed (known_row known) (assigned view.now)
        (arguments_of view.now) place) }
{
    match known.form {
        Form::Base => left_base(alloc, known.builtin, place, view),
        Form::Reified => left_form(alloc, known.builtin, place, view),
        Form::Implied => Ok(None),
    }
}

// What a reified row leaves to its control variable: whether the base row holds.
fn left_form(
    alloc: Global,
    builtin: Builtin,
    place: usize,
    view: &ArgumentView<'_, '_>,
) -> Result<Option<Value>, AllocError>
    requires { place ≡ length (row_at builtin).shapes }
    ensures { IfOk result (IsLeftIfComputed (reified (row_at builtin)) (assigned view.now)
        (arguments_of view.now) place) }
{
    match of_builtin(alloc, builtin, view)? {
        Outcome::Truth(truth) => Ok(Some(Value::Bool(truth))),
        Outcome::TooLarge | Outcome::Unknown => Ok(None),
    }
}

// What a base row leaves to its result: the value that it says the result has.
#[inline(always)]
fn left_base(
    alloc: Global,
    builtin: Builtin,
    place: usize,
    view: &ArgumentView<'_, '_>,
) -> Result<Option<Value>, AllocError>
    requires { IsPlaceOf (result_of (row_at builtin)) place }
    ensures { IfOk result (IsLeftIfComputed (row_at builtin) (assigned view.now)
        (arguments_of view.now) place) }
{
    match said_of(alloc, builtin, place == 0, view) {
        Ok(said) => left_by(alloc, said),
        Err(SetError::Memory) => Err(AllocError),
    }
}

// What a row leaves to its result that says this. It is no value for a number past 64 bits.
fn left_by(alloc: Global, said: Said<'_>) -> Result<Option<Value>, AllocError>
    ensures { (r : Row) (K : Partial) (xs : List Argument) (i : ℕ) → IsPlaceOf (result_of r) i
        → IsSaid r (nat_eq i 0) K xs said.entry → IfOk result (IsLeftIfComputed r K xs i) }
{
    match said {
        Said::Whether(_) => Ok(None),
        Said::Number(_, number) => Ok(narrowed(number).map(Value::Int)),
        Said::Boolean(_, truth) => Ok(truth.map(Value::Bool)),
        Said::Set(_, set) => Ok(Some(Value::Set(set))),
        Said::Given(_, set) => Ok(copied(alloc, set)?.map(Value::Set)),
    }
}

fn copied(alloc: Global, set: Option<&IntSet>) -> Result<Option<IntSet>, AllocError>
    ensures { IfOk result (λ copy. copy ≡ option_map (λ s. s.now) set.entry) }
{
    match set {
        Some(set) => Ok(Some(set.copy(alloc)?)),
        None => Ok(None),
    }
}
