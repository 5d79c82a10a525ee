//! Whether the printed names have their printed values.

ghost use Rattle.std.specs.Prelude.{◌≡◌, ℕ, IfOk, List, None, map, option_map};
ghost use Rattle.fz_index.specs.of_model.Meaning.{Place, Variable as DeclaredVariable, first_some};
ghost use Rattle.fz_index.specs.of_model.declared.Kind.{Kind as KindOf};
ghost use Rattle.fz_index.specs.of_model.Names.{literal_value};
ghost use Rattle.fz_index.specs.of_model.declared.Term.TheVariants.{Var};
ghost use Rattle.fz_index.specs.of_model.Shown.{scalar_terms, what_place};
ghost use Rattle.fz_index.specs.of_model.Slots.{scalar_term};
ghost use Rattle.fz_stream.specs.of_syntax.View.{bare_items, bare_literal, bare_printed, bare_printed_value};
ghost use Rattle.fz_filling.specs.BlockFaults.{AllFit, ItemFits};
ghost use Rattle.fz_filling.specs.Verdict.{has_printed, printed_fails};
ghost use Rattle.fz_filling.specs.View.{fault_view};
ghost use Rattle.fz_filling.specs.Working.{has_value, have_values};

use crate::values::{is_number, is_of_literal, is_set, is_truth};
use crate::verdict::Fault;
use fz_store::{Model, Partial, Scalar, Scalars, What, scalar_at};
use fz_stream::{Literal, Printed, PrintedValue};
use std::alloc::{AllocError, Global};

/// Whether the variable of a number has the value of the literal.
fn variable_has(
    alloc: Global,
    partial: &Partial,
    number: usize,
    literal: &Literal,
) -> Result<bool, AllocError>
    ensures { IfOk result (λ b. b ≡ has_value partial.now
        (Var number, literal_value (bare_literal literal.now))) }
{
    match partial.get(number) {
        Some(value) => is_of_literal(alloc, value, &literal.what),
        None => Ok(false),
    }
}

/// Whether the scalar has the value of the literal.
fn has_value(
    alloc: Global,
    partial: &Partial,
    scalar: Scalar<'_>,
    literal: &Literal,
) -> Result<bool, AllocError>
    ensures { IfOk result (λ b. b ≡ has_value partial.now
        (scalar_term scalar.entry, literal_value (bare_literal literal.now))) }
{
    match scalar {
        Scalar::Variable(number) => variable_has(alloc, partial, number, literal),
        Scalar::Number(number) => Ok(is_number(number, &literal.what)),
        Scalar::Truth(truth) => Ok(is_truth(truth, &literal.what)),
        Scalar::Set(set) => is_set(alloc, set, &literal.what),
    }
}

/// Whether there are as many literals as scalars, and each scalar has the value of the literal
/// beside it.
fn have_values(
    alloc: Global,
    partial: &Partial,
    list: Scalars<'_>,
    literals: &[Literal],
) -> Result<bool, AllocError>
    ensures { IfOk result (λ b. b ≡ have_values partial.now (scalar_terms list.entry)
        (map literal_value (map bare_literal literals.now))) }
{
    if list.len() != literals.len() {
        return Ok(false);
    }
    for (slot, literal) in list.slots.iter().zip(literals) {
        let scalar = scalar_at(list.constants, *slot);
        if !has_value(alloc, partial, scalar, literal)? {
            return Ok(false);
        }
    }
    Ok(true)
}

/// Whether a scalar has the printed value.
fn scalar_has(
    alloc: Global,
    partial: &Partial,
    scalar: Scalar<'_>,
    value: &PrintedValue,
) -> Result<bool, AllocError>
    ensures { IfOk result (λ b. (k : KindOf) → b ≡ has_printed partial.now
        (Place.Scalar k (scalar_term scalar.entry)) (bare_printed_value value.now)) }
{
    match value {
        PrintedValue::One(literal) => has_value(alloc, partial, scalar, literal),
        PrintedValue::Array { .. } => Ok(false),
    }
}

/// Whether the elements of an array have the printed values.
fn array_has(
    alloc: Global,
    partial: &Partial,
    list: Scalars<'_>,
    value: &PrintedValue,
) -> Result<bool, AllocError>
    ensures { IfOk result (λ b. (x : List ℕ) (k : KindOf)
        → b ≡ has_printed partial.now (Place.Array x k (scalar_terms list.entry))
        (bare_printed_value value.now)) }
{
    match value {
        PrintedValue::One(_) => Ok(false),
        PrintedValue::Array { elements, .. } => have_values(alloc, partial, list, elements),
    }
}

/// Whether what a name stands for has the printed value.
fn has_printed(
    alloc: Global,
    partial: &Partial,
    what: What<'_>,
    value: &PrintedValue,
) -> Result<bool, AllocError>
    ensures { IfOk result (λ b. (vs : List DeclaredVariable) (x : List ℕ)
        → b ≡ has_printed partial.now (what_place vs x what.entry)
        (bare_printed_value value.now)) }
{
    match what {
        What::Scalar(scalar) => scalar_has(alloc, partial, scalar, value),
        What::Array(_, list) => array_has(alloc, partial, list, value),
    }
}

/// The fault of a printed item, where its name has another value than the printed one.
fn item_fails<'a>(
    alloc: Global,
    model: &Model<'a>,
    partial: &Partial,
    item: &Printed<'_>,
) -> Result<Option<Fault<'a>>, AllocError>
    requires fits { ItemFits model.now (bare_printed item.now) }
    ensures { IfOk result (λ o. option_map fault_view o
        ≡ printed_fails model.now partial.now (bare_printed item.now)) }
{
    match model.find(item.name.text) {
        Some(found) => {
            if has_printed(alloc, partial, found.what, &item.value)? {
                Ok(None)
            } else {
                Ok(Some(Fault::Printed(found.name)))
            }
        }
        // The name is declared, since the item fits.
        None => Ok(None),
    }
}

/// The fault of the first printed item whose name has another value than the printed one.
pub fn printed_fails<'a>(
    alloc: Global,
    model: &Model<'a>,
    partial: &Partial,
    items: &[Printed<'_>],
) -> Result<Option<Fault<'a>>, AllocError>
    requires fits { AllFit model.now (bare_items items.now) }
    ensures { IfOk result (λ o. option_map fault_view o
        ≡ first_some (printed_fails model.now partial.now) (bare_items items.now)) }
{
    for item in items {
        let fault = item_fails(alloc, model, partial, item)?;
        if fault.is_some() {
            return Ok(fault);
        }
    }
    Ok(None)
}
