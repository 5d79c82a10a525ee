//! The start of a filling: the printed values, each variable's first one.

ghost use Rattle.std.specs.Prelude.{◌≡◌, ◌<◌, ℕ, List, None, IfErr, IfOk, IfSome, OnOk, cond, is_none, length, map};
ghost use Rattle.std.specs.List.{AllByRecursion};
ghost use Rattle.fz_index.specs.of_model.Meaning.{IsPartial, Variable as DeclaredVariable, value_at, variables_of};
ghost use Rattle.fz_index.specs.of_model.Steps.{give};
ghost use Rattle.fz_index.specs.of_model.Names.{literal_value};
ghost use Rattle.fz_index.specs.of_model.Partial.{nothing_for};
ghost use Rattle.fz_index.specs.of_model.Shown.{scalar_terms, what_place};
ghost use Rattle.fz_index.specs.of_model.Slots.{scalar_term};
ghost use Rattle.fz_stream.specs.of_syntax.View.{bare_items, bare_literal, bare_literal_kind, bare_printed, bare_printed_value};
ghost use Rattle.fz_filling.specs.BlockFaults.{items_fault, printed_fault};
ghost use Rattle.fz_filling.specs.Filling.{pairs, pairs_at, printed_scalars, start_from};
ghost use Rattle.fz_filling.specs.Judged.{TellsFault};
ghost use Rattle.fz_filling.specs.Working.{HasRoom, IsWithin, element_pairs, item_scalars, one_pair, terms_of_what, with_all, with_first};

use crate::error::BlockError;
use crate::faults::value_fault;
use fz_data::literal_value;
use fz_store::{Model, Partial, Scalar, Scalars, Value, What, scalar_at};
use fz_stream::{Literal, LiteralKind, Printed, PrintedValue};
use std::alloc::{AllocError, Global};

/// Gives a variable without a value that of a literal. A number or a Boolean is set with no copy on
/// the way.
#[inline(always)]
fn give_value(
    alloc: Global,
    partial: &mut Partial,
    number: usize,
    literal: &LiteralKind,
) -> Result<(), AllocError>
    requires in_range { number < length partial.old }
    requires unset { value_at partial.old number ≡ None }
    ensures { OnOk result (partial.new
        ≡ give partial.old number (literal_value (bare_literal_kind literal.now))) }
{
    match literal {
        LiteralKind::Whole(whole) => {
            partial.set(number, Value::Int(*whole));
            Ok(())
        }
        LiteralKind::Truth(truth) => {
            partial.set(number, Value::Bool(*truth));
            Ok(())
        }
        LiteralKind::Range(_, _) => give_made(alloc, partial, number, literal),
        LiteralKind::Braces(_) => give_made(alloc, partial, number, literal),
    }
}

/// Gives a variable without a value that of a literal, which is made.
fn give_made(
    alloc: Global,
    partial: &mut Partial,
    number: usize,
    literal: &LiteralKind,
) -> Result<(), AllocError>
    requires in_range { number < length partial.old }
    requires unset { value_at partial.old number ≡ None }
    ensures { OnOk result (partial.new
        ≡ give partial.old number (literal_value (bare_literal_kind literal.now))) }
{
    let value = literal_value(alloc, literal)?;
    partial.set(number, value);
    Ok(())
}

/// Gives a variable the value of a literal, where it has none.
#[inline(always)]
fn set_variable(
    alloc: Global,
    partial: &mut Partial,
    number: usize,
    literal: &LiteralKind,
) -> Result<(), AllocError>
    requires in_range { number < length partial.old }
    ensures { OnOk result (partial.new ≡ cond (is_none (value_at partial.old number))
        (give partial.old number (literal_value (bare_literal_kind literal.now))) partial.old) }
{
    match partial.get(number) {
        Some(_) => Ok(()),
        None => give_value(alloc, partial, number, literal),
    }
}

/// Gives a scalar the value of a literal, where it is a variable without one.
#[inline(always)]
fn set_scalar(
    alloc: Global,
    partial: &mut Partial,
    scalar: Scalar<'_>,
    literal: &Literal,
) -> Result<(), AllocError>
    requires within { IsWithin (length partial.old) (scalar_term scalar) }
    ensures { OnOk result (partial.new ≡ with_first partial.old
        (scalar_term scalar.entry, literal_value (bare_literal literal.now))) }
{
    match scalar {
        Scalar::Variable(number) => set_variable(alloc, partial, number, &literal.what),
        Scalar::Number(_) | Scalar::Truth(_) | Scalar::Set(_) => Ok(()),
    }
}

/// Gives each scalar the value of the literal beside it, where it is a variable without one.
fn set_elements(
    alloc: Global,
    partial: &mut Partial,
    list: Scalars<'_>,
    literals: &[Literal],
) -> Result<(), AllocError>
    requires within { AllByRecursion (IsWithin (length partial.old)) (scalar_terms list) }
    ensures { OnOk result (partial.new ≡ with_all partial.old
        (pairs (scalar_terms list.entry) (map literal_value (map bare_literal literals.now)))) }
{
    for (slot, literal) in list.slots.iter().zip(literals) {
        let scalar = scalar_at(list.constants, *slot);
        set_scalar(alloc, partial, scalar, literal)?;
    }
    Ok(())
}

/// Gives what a name stands for its printed value, where variables have none.
fn set_value(
    alloc: Global,
    partial: &mut Partial,
    what: What<'_>,
    value: &PrintedValue,
) -> Result<(), AllocError>
    requires within { AllByRecursion (IsWithin (length partial.old)) (terms_of_what what) }
    ensures { OnOk result ((vs : List DeclaredVariable) (x : List ℕ)
        → partial.new ≡ with_all partial.old
        (pairs_at (what_place vs x what.entry) (bare_printed_value value.now))) }
{
    match what {
        What::Scalar(scalar) => set_one(alloc, partial, scalar, value),
        What::Array(_, list) => set_array(alloc, partial, list, value),
    }
}

/// Gives a scalar its printed value, where it is a variable without one.
fn set_one(
    alloc: Global,
    partial: &mut Partial,
    scalar: Scalar<'_>,
    value: &PrintedValue,
) -> Result<(), AllocError>
    requires within { IsWithin (length partial.old) (scalar_term scalar) }
    ensures { OnOk result (partial.new ≡ with_all partial.old
        (one_pair (scalar_term scalar.entry) (bare_printed_value value.now))) }
{
    match value {
        PrintedValue::One(literal) => set_scalar(alloc, partial, scalar, literal),
        PrintedValue::Array { .. } => Ok(()),
    }
}

/// Gives the elements of an array their printed values, where they are variables without one.
fn set_array(
    alloc: Global,
    partial: &mut Partial,
    list: Scalars<'_>,
    value: &PrintedValue,
) -> Result<(), AllocError>
    requires within { AllByRecursion (IsWithin (length partial.old)) (scalar_terms list) }
    ensures { OnOk result (partial.new ≡ with_all partial.old
        (element_pairs (scalar_terms list.entry) (bare_printed_value value.now))) }
{
    match value {
        PrintedValue::One(_) => Ok(()),
        PrintedValue::Array { elements, .. } => set_elements(alloc, partial, list, elements),
    }
}

/// Gives what an item names its printed value, where the item has no fault. A fault's byte range
/// counts from the block's text.
fn set_item(
    alloc: Global,
    model: &Model<'_>,
    partial: &mut Partial,
    item: &Printed<'_>,
) -> Result<(), BlockError>
    requires fits { IsPartial model.now partial.old }
    ensures given { OnOk result (partial.new
        ≡ with_all partial.old (item_scalars model.now (bare_printed item.now))) }
    ensures kinds { OnOk result (IsPartial model.now partial.new) }
    ensures clean { OnOk result (printed_fault model.now item.now ≡ None) }
    ensures told { IfErr result (λ e. TellsFault e (printed_fault model.now item.now)) }
{
    let Some(found) = model.find(item.name.text) else {
        return Err(BlockError::UnknownName(item.name.span));
    };
    if let Some(fault) = value_fault(model.variables(), &item.name, found.what, &item.value) {
        return Err(fault);
    }
    Ok(set_value(alloc, partial, found.what, &item.value)?)
}

/// What is proposed before the first item: no variable has a value. It takes the memory of a spare
/// filling where there is one, else new memory.
pub(crate) fn nothing_proposed(
    alloc: Global,
    model: &Model<'_>,
    spare: Option<Box<Partial>>,
) -> Result<Box<Partial>, AllocError>
    requires room { IfSome spare (λ s. HasRoom model.now s.value) }
    ensures empty { IfOk result (λ s. s.value ≡ nothing_for model.now) }
{
    match spare {
        Some(mut partial) => {
            partial.clear();
            Ok(partial)
        }
        None => Ok(Box::new(alloc, Partial::new(alloc, model)?)?),
    }
}

/// Proposes the values that a block's items print, where no item has a fault. A fault's byte range
/// counts from the block's text.
pub(crate) fn start(
    alloc: Global,
    model: &Model<'_>,
    items: &[Printed<'_>],
    partial: &mut Partial,
) -> Result<(), BlockError>
    requires empty { partial.old ≡ nothing_for model.now }
    ensures started { OnOk result (partial.new ≡ start_from
        (printed_scalars model.now (bare_items items.now)) 0 (variables_of model.now)) }
    ensures kinds { OnOk result (IsPartial model.now partial.new) }
    ensures clean { OnOk result (items_fault model.now items.now ≡ None) }
    ensures told { IfErr result (λ e. TellsFault e (items_fault model.now items.now)) }
{
    for item in items {
        set_item(alloc, model, partial, item)?;
    }
    Ok(())
}
