//! Constraints.

ghost use Rattle.std.specs.Prelude.{◌≡◌, IfOk, Some, true, false, cond, map, option_map};
ghost use Rattle.std.specs.List.{list_any};
ghost use Rattle.fz_builtins.specs.of_meaning.Meaning.{have_shapes, row_of};
ghost use Rattle.fz_builtins.specs.of_meaning.States.{state_of_row};
ghost use Rattle.fz_builtins.specs.of_meaning.Known.{known_row};
ghost use Rattle.fz_builtins.specs.of_store.Parts.{constraint_view};
ghost use Rattle.fz_builtins.specs.of_kernel.Given.{are_read, read_unknown};
ghost use Rattle.fz_builtins.specs.of_kernel.Views.{arguments_of, assigned};
ghost use Rattle.fz_builtins.specs.Outcomes.{outcome_beyond, reads_beyond, row_outcome, told};
ghost use Rattle.fz_builtins.specs.declared.outcome.Outcome.TheVariants.{Truth};

use fz_builtins::{Outcome, control, is_unknown, leaves, of_builtin};
use fz_kernel::{ArgumentView, Readiness};
use fz_store::{ConstraintParts, Form, Known, Partial, State};
use std::alloc::{AllocError, Global};

/// The state of a constraint: unknown without a row, whatever its values are; then without a value;
/// then unknown or too large where a number can't be computed; then by its row.
#[inline(always)]
pub(crate) fn of_constraint(
    alloc: Global,
    parts: ConstraintParts<'_, '_>,
    partial: &Partial,
) -> Result<State, AllocError>
    requires known { option_map known_row parts.posted.now.known ≡ row_of (constraint_view parts) }
    ensures { IfOk result (λ s. s ≡ state_of_row partial.now (constraint_view parts.entry).arguments
        (row_of (constraint_view parts.entry))) }
{
    let Some(known) = parts.posted.known else {
        return Ok(State::Unknown);
    };
    of_view(alloc, known, &ArgumentView::new(parts, partial))
}

#[inline]
fn of_view(alloc: Global, known: Known, view: &ArgumentView<'_, '_>) -> Result<State, AllocError>
    requires fits { have_shapes (known_row known).shapes (arguments_of view.now) ≡ true }
    ensures { IfOk result (λ s. s ≡ state_of_row (assigned view.now) (arguments_of view.now)
        (Some (known_row known))) }
{
    match view.readiness(known.shapes()) {
        Readiness::Missing => Ok(State::NoValue),
        Readiness::WrongKind => Ok(of_wrong_kind(known, view)),
        Readiness::Ready => of_ready(alloc, known, view),
    }
}

/// The state of a constraint whose scalars have values of the kinds that its row asks for.
#[inline(always)]
pub(crate) fn of_ready(
    alloc: Global,
    known: Known,
    view: &ArgumentView<'_, '_>,
) -> Result<State, AllocError>
    requires fits { have_shapes (known_row known).shapes (arguments_of view.now) ≡ true }
    requires ready { are_read (assigned view.now) (known_row known).shapes (arguments_of view.now)
        ≡ true }
    ensures { IfOk result (λ s. s ≡ state_of_row (assigned view.now) (arguments_of view.now)
        (Some (known_row known))) }
{
    Ok(of_known(alloc, known, view)?.told())
}

// The state of a constraint with a value of another kind than its row asks for.
fn of_wrong_kind(known: Known, view: &ArgumentView<'_, '_>) -> State
    ensures { result ≡ told (cond
        (reads_beyond (known_row known) (assigned view.now) (arguments_of view.now))
        (outcome_beyond (known_row known) (assigned view.now) (arguments_of view.now))
        (Truth false)) }
{
    if is_beyond(known, view) {
        if is_not_known(known, view) {
            State::Unknown
        } else {
            State::TooLarge
        }
    } else {
        State::Fails
    }
}

// Whether a number of the row can't be computed.
fn is_beyond(known: Known, view: &ArgumentView<'_, '_>) -> bool
    ensures { result ≡ reads_beyond (known_row known) (assigned view.now) (arguments_of view.now) }
{
    known.wide().iter().any(|number| leaves(view, *number))
}

// Whether a power of the row isn't known.
fn is_not_known(known: Known, view: &ArgumentView<'_, '_>) -> bool
    ensures { result ≡ list_any (read_unknown (assigned view.now) (arguments_of view.now))
        (known_row known).wide }
{
    known.wide().iter().any(|number| is_unknown(view, *number))
}

// The row's outcome: of a reified form, what it says of the outcome of the base row.
#[inline(always)]
fn of_known(alloc: Global, known: Known, view: &ArgumentView<'_, '_>) -> Result<Outcome, AllocError>
    ensures { IfOk result (λ o. o ≡ row_outcome (known_row known) (assigned view.now)
        (arguments_of view.now)) }
{
    let outcome = of_builtin(alloc, known.builtin, view)?;
    match known.form {
        Form::Base => Ok(outcome),
        Form::Reified => Ok(outcome.compared(control(known, view))),
        Form::Implied => Ok(outcome.implied_by(control(known, view))),
    }
}
