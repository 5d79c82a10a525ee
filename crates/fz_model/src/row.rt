//! What a constraint forces by its row of the table.

ghost use Rattle.std.specs.Prelude.{◌≡◌, ◌↔◌, IfOk, IfSome, IsTrue, Some, option_map, true};
ghost use Rattle.fz_builtins.specs.of_meaning.of_base.declared.value.Value.TheVariants.{Int};
ghost use Rattle.fz_builtins.specs.of_meaning.Results.Result.{UnitTerm};
ghost use Rattle.fz_builtins.specs.of_meaning.Results.{result_of};
ghost use Rattle.fz_builtins.specs.of_meaning.Meaning.{IsPartial, Model as Meaning, row_of};
ghost use Rattle.fz_builtins.specs.of_meaning.Meaning.Point.{ConstraintPoint};
ghost use Rattle.fz_builtins.specs.of_meaning.Known.{as_result, known_row};
ghost use Rattle.fz_builtins.specs.of_store.Kinds.{PostedFits};
ghost use Rattle.fz_builtins.specs.of_store.Parts.{constraint_view};
ghost use Rattle.fz_builtins.specs.of_kernel.Views.{arguments_of, assigned};
ghost use Rattle.fz_model.specs.Left.{HasUnit, IsPlaceOf};
ghost use Rattle.fz_model.specs.Forced.{IsForced, IsForcedAny, IsOnlyValue, IsReady, IsRow};
ghost use Rattle.fz_model.specs.KindsFit.{each_fits};

use crate::only::{Opening, Spot, open_in_row, opening_of};
use crate::unit::unit_value;
use crate::value::left_value;
use fz_kernel::ArgumentView;
use fz_store::{ConstraintParts, Filled, Known, Partial, Posted, Value};
use std::alloc::{AllocError, Global};

/// What a constraint forces: the value that its row leaves to its defined variable, where that is
/// in an argument that the row lets `defines_var` name and is the only scalar without a value.
#[inline(always)]
pub(crate) fn by_row(
    alloc: Global,
    parts: ConstraintParts<'_, '_>,
    partial: &Partial,
) -> Result<Option<(usize, Value)>, AllocError>
    requires known { option_map known_row parts.posted.now.known ≡ row_of (constraint_view parts) }
    requires kinds { IfSome parts.posted.now.known
        (λ k. each_fits partial.now (known_row k).shapes (constraint_view parts).arguments ≡ true) }
    ensures forced { (m : Meaning) → IsPartial m partial.now
        → PostedFits m (constraint_view parts.entry) → IfOk result
        (λ o. IsForced m partial.now (ConstraintPoint parts.entry.number
        (constraint_view parts.entry)) o) }
{
    let Some(known) = parts.posted.known else {
        return Ok(None);
    };
    match opening_of(&parts, partial) {
        Opening::Never => Ok(None),
        Opening::Waits(_) => Ok(None),
        Opening::At(spot) => {
            match value_at(alloc, known, spot, &ArgumentView::new(parts, partial))? {
                Some(value) => Ok(Some((spot.variable, value))),
                None => Ok(None),
            }
        }
    }
}

/// The same, where the only scalar without a value may be in any argument that `defines_var` might
/// name: the constraint is taken as one whose defined variable that is.
#[inline(always)]
pub(crate) fn by_any_result(
    alloc: Global,
    parts: ConstraintParts<'_, '_>,
    partial: &Partial,
) -> Result<Option<(usize, Value)>, AllocError>
    requires known { option_map known_row parts.posted.now.known ≡ row_of (constraint_view parts) }
    requires kinds { IfSome parts.posted.now.known
        (λ k. each_fits partial.now (known_row k).shapes (constraint_view parts).arguments ≡ true) }
    ensures forced { (m : Meaning) → IsPartial m partial.now
        → PostedFits m (constraint_view parts.entry) → IfOk result
        (λ o. IsForcedAny m partial.now (ConstraintPoint parts.entry.number
        (constraint_view parts.entry)) o) }
{
    let Some(unset) = open_in_row(&parts, partial) else {
        return Ok(None);
    };
    let posted = Posted {
        target: Some(unset),
        ..*parts.posted
    };
    let aimed = ConstraintParts {
        posted: &posted,
        ..parts
    };
    by_row(alloc, aimed, partial)
}

// The value of the variable there with which the row holds.
#[inline(always)]
fn value_at(
    alloc: Global,
    known: Known,
    spot: Spot,
    view: &ArgumentView<'_, '_>,
) -> Result<Option<Value>, AllocError>
    requires row { IsRow (known_row known) }
    requires ready { IsReady (assigned view.now) (arguments_of view.now) (known_row known) spot }
    ensures { IfOk result (λ o. IsOnlyValue (assigned view.now) (arguments_of view.now)
        (known_row known) spot.variable o) }
{
    if is_unit_term(known.filled()) {
        return Ok(element_left(known, spot, view).map(Value::Int));
    }
    if is_place(known.filled(), spot.argument) {
        return left_value(alloc, known, spot.argument, view);
    }
    Ok(None)
}

// The value of an element of a sum, where its coefficient is 1 or -1.
fn element_left(known: Known, spot: Spot, view: &ArgumentView<'_, '_>) -> Option<i64>
    requires row { IsRow (known_row known) }
    requires unit_term { result_of (known_row known) ≡ UnitTerm }
    requires ready { IsReady (assigned view.now) (arguments_of view.now) (known_row known) spot }
    ensures { IsOnlyValue (assigned view.now) (arguments_of view.now)
        (known_row known) spot.variable (option_map Int result) }
{
    if spot.argument != 1 || !has_unit(view, spot.place) {
        return None;
    }
    unit_value(view, spot.place)
}

// Whether an element has the coefficient 1 or -1.
fn has_unit(view: &ArgumentView<'_, '_>, place: usize) -> bool
    ensures { IsTrue result ↔ HasUnit (assigned view.now) (arguments_of view.now) place }
{
    let coefficients = view.elements(0);
    if place >= coefficients.len() {
        return false;
    }
    let coefficient = coefficients.int(place);
    coefficient == 1 || coefficient == -1
}

fn is_unit_term(filled: Filled) -> bool
    ensures { IsTrue result ↔ (as_result filled ≡ UnitTerm) }
{
    matches!(filled, Filled::UnitTerm)
}

// Whether the argument at an index may be filled.
fn is_place(filled: Filled, place: usize) -> bool
    ensures { IsTrue result ↔ IsPlaceOf (as_result filled) place }
{
    match filled {
        Filled::Nothing | Filled::UnitTerm => false,
        Filled::At(own) => place == own,
        Filled::Either(first, second) => place == first || place == second,
    }
}
