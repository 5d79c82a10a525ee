//! What of a printed item does not fit the model. Byte ranges count from the block's text.

ghost use Rattle.std.specs.Prelude.{◌≡◌, ℕ, List, map, option_map, slice_get};
ghost use Rattle.std.specs.Option.{option_map_or};
ghost use Rattle.fz_index.specs.of_model.declared.Term.{Term as Held};
ghost use Rattle.fz_index.specs.of_model.Meaning.{Place, first_some};
ghost use Rattle.fz_index.specs.of_model.Parts.{variable_view};
ghost use Rattle.fz_index.specs.of_model.Shown.{kind_among, scalar_terms, what_place};
ghost use Rattle.fz_index.specs.of_model.Slots.{scalar_term};
ghost use Rattle.fz_filling.specs.BlockFaults.{literal_fault, value_fault};
ghost use Rattle.fz_filling.specs.Judged.{refusal};

use crate::error::BlockError;
use fz_data::literal_kind;
use fz_store::{Kind, Scalar, Scalars, Variable, What, same_kind};
use fz_stream::{Literal, Name, PrintedValue};

/// A literal of another kind.
fn literal_fault(kind: Kind, literal: &Literal) -> Option<BlockError>
    ensures { result ≡ option_map refusal (literal_fault kind literal.now) }
{
    if same_kind(literal_kind(&literal.what), kind) {
        None
    } else {
        Some(BlockError::Kind(literal.span))
    }
}

/// The first literal of another kind.
fn elements_fault(kind: Kind, literals: &[Literal]) -> Option<BlockError>
    ensures { result ≡ option_map refusal
        (first_some (literal_fault kind) literals.now) }
{
    for literal in literals {
        let fault = literal_fault(kind, literal);
        if fault.is_some() {
            return fault;
        }
    }
    None
}

/// The kind of the variable with a number.
fn variable_kind(variables: &[Variable<'_>], number: usize) -> Kind
    ensures { result ≡ option_map_or (λ v. v.kind)
        (slice_get (map variable_view variables.now) number) Kind.Int }
{
    match variables.get(number) {
        Some(variable) => variable.kind,
        None => Kind::Int,
    }
}

/// The kind of a scalar: its variable's, or its value's.
fn scalar_kind(variables: &[Variable<'_>], scalar: Scalar<'_>) -> Kind
    ensures { result ≡ kind_among (map variable_view variables.now) (scalar_term scalar.entry) }
{
    match scalar {
        Scalar::Variable(number) => variable_kind(variables, number),
        Scalar::Number(_) => Kind::Int,
        Scalar::Truth(_) => Kind::Bool,
        Scalar::Set(_) => Kind::Set,
    }
}

/// What of the value that is printed for a scalar of a kind does not fit.
fn scalar_fault(name: &Name<'_>, kind: Kind, value: &PrintedValue) -> Option<BlockError>
    ensures { (t : Held) → result ≡ option_map refusal
        (value_fault name.now (Place.Scalar kind t) value.now) }
{
    match value {
        PrintedValue::One(literal) => literal_fault(kind, literal),
        PrintedValue::Array { .. } => Some(BlockError::Kind(name.span)),
    }
}

/// What of the value that is printed for an array does not fit.
fn array_fault(
    name: &Name<'_>,
    kind: Kind,
    list: Scalars<'_>,
    value: &PrintedValue,
) -> Option<BlockError>
    ensures { (x : List ℕ) → result ≡ option_map refusal
        (value_fault name.now (Place.Array x kind (scalar_terms list.entry)) value.now) }
{
    match value {
        PrintedValue::One(_) => Some(BlockError::Kind(name.span)),
        PrintedValue::Array { elements, .. } => {
            if elements.len() != list.len() {
                return Some(BlockError::Length(name.span));
            }
            elements_fault(kind, elements)
        }
    }
}

/// What of a printed value does not fit what its name stands for.
pub(crate) fn value_fault(
    variables: &[Variable<'_>],
    name: &Name<'_>,
    what: What<'_>,
    value: &PrintedValue,
) -> Option<BlockError>
    ensures { (x : List ℕ) → result ≡ option_map refusal
        (value_fault name.now (what_place (map variable_view variables.now) x what.entry)
        value.now) }
{
    match what {
        What::Scalar(scalar) => scalar_fault(name, scalar_kind(variables, scalar), value),
        What::Array(kind, list) => array_fault(name, kind, list, value),
    }
}
