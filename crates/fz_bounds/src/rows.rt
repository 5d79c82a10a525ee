//! Rows of THE TABLE, and their reified forms, within bounds.

ghost use Rattle.std.specs.Prelude.{◌≡◌, ◌↔◌, IfOk, IsTrue, length, option_map};
ghost use Rattle.fz_model.specs.Builtins.{row_at};
ghost use Rattle.fz_model.specs.of_builtins.of_meaning.Known.{HasTruth, known_row};
ghost use Rattle.fz_model.specs.Meaning.{row_of};
ghost use Rattle.fz_model.specs.Meaning.Point.{ConstraintPoint};
ghost use Rattle.fz_model.specs.Parts.{constraint_view};
ghost use Rattle.fz_model.specs.of_builtins.of_kernel.declared.reading.Readiness.TheVariants.{Ready};
ghost use Rattle.fz_bounds.specs.Bounds.{NeverHolds};
ghost use Rattle.fz_bounds.specs.Within.{AreKnown, Foretells, TellsTruth};

use crate::bounded::BoundedConstraint;
use crate::bounds::Bounds;
use crate::builtins::foretold;
use crate::outlook::Outlook;
use fz_builtins::control_index;
use fz_kernel::Readiness;
use fz_store::{Builtin, ConstraintParts, Form, Known};
use std::alloc::{AllocError, Global};

/// Whether a constraint is found to hold under no assignment inside the bounds. Each of its scalars
/// has to have bounds.
pub(crate) fn row_fails(
    alloc: Global,
    parts: &ConstraintParts<'_, '_>,
    bounds: &Bounds,
) -> Result<bool, AllocError>
    requires known { option_map known_row parts.now.posted.now.known
        ≡ row_of (constraint_view parts.now) }
    ensures { IfOk result (λ b. IsTrue b → NeverHolds bounds.now
        (ConstraintPoint parts.now.number (constraint_view parts.now))) }
{
    let Some(known) = parts.posted.known else {
        return Ok(false);
    };
    // A power isn't known where its exponent is negative: its row says nothing there.
    if known.builtin == Builtin::IntPow {
        return Ok(false);
    }
    let at = BoundedConstraint {
        parts: *parts,
        lowest: bounds.lowest(),
        highest: bounds.highest(),
    };
    if !at.are_known(known) {
        return Ok(false);
    }
    let told = form_foretold(alloc, known, &at)?;
    Ok(told.is_never())
}

/// Whether a row, or a reified form of it, holds at no arguments inside the bounds, or at all.
fn form_foretold(
    alloc: Global,
    known: Known,
    at: &BoundedConstraint<'_, '_>,
) -> Result<Outlook, AllocError>
    ensures { IfOk result (Foretells at.now (known_row known)) }
{
    let base = base_foretold(alloc, known.builtin, at)?;
    match known.form {
        Form::Base => Ok(base),
        Form::Reified => Ok(control(known, at).same(base)),
        Form::Implied => Ok(control(known, at).negated().or(base)),
    }
}

/// The same of a row without a form. Of some rows numbers are sorted, or places marked, which takes
/// memory.
fn base_foretold(
    alloc: Global,
    builtin: Builtin,
    at: &BoundedConstraint<'_, '_>,
) -> Result<Outlook, AllocError>
    ensures { IfOk result (Foretells at.now (row_at builtin)) }
{
    match builtin {
        Builtin::FznAllDifferentInt => at.all_different(alloc),
        Builtin::FznNvalue => at.has_so_many_values(alloc),
        Builtin::GecodeCircuit => at.is_circuit(alloc),
        Builtin::FzcheckSubcircuit => at.is_subcircuit(alloc),
        _ => Ok(foretold(builtin, at)),
    }
}

/// The Boolean of a reified form, after the arguments of the base row.
fn control(known: Known, at: &BoundedConstraint<'_, '_>) -> Outlook
    requires { HasTruth known.form }
    ensures { TellsTruth at.now (length (row_at known.builtin).shapes) result }
{
    at.truth(control_index(known))
}

impl<'s, 'a> BoundedConstraint<'s, 'a> {
    /// Whether each scalar has bounds of the kinds that the row asks for.
    pub(crate) fn are_known(&self, known: Known) -> bool
        ensures { IsTrue result → AreKnown self.now (known_row known).shapes }
    {
        let shapes = known.shapes();
        is_ready(self.low().readiness(shapes)) && is_ready(self.high().readiness(shapes))
    }
}

fn is_ready(readiness: Readiness) -> bool
    ensures { IsTrue result ↔ (readiness ≡ Ready) }
{
    matches!(readiness, Readiness::Ready)
}
