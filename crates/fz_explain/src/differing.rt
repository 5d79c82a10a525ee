//! The element of a printed array whose value isn't the printed one.

ghost use Rattle.std.specs.Prelude.{◌≡◌, IfOk, map};
ghost use Rattle.fz_filling.specs.of_model.Names.{literal_value};
ghost use Rattle.fz_filling.specs.of_model.Shown.{scalar_terms};
ghost use Rattle.fz_filling.specs.of_model.Slots.{scalar_term};
ghost use Rattle.fz_tree.specs.View.{bare_literal};
ghost use Rattle.fz_explain.specs.Differing.{first_differing, has_value};

use fz_data::literal_value;
use fz_places::Value;
use fz_store::{Partial, Scalar, Scalars, scalar_at};
use fz_tree::Literal;
use std::alloc::{AllocError, Global};

/// Whether a scalar has a value, and it is that of the literal.
fn has_value(
    alloc: Global,
    filling: &Partial,
    scalar: Scalar<'_>,
    literal: &Literal,
) -> Result<bool, AllocError>
    ensures { IfOk result (λ b. b ≡ has_value filling.now
        (scalar_term scalar.entry) (literal_value (bare_literal literal.now))) }
{
    let printed = literal_value(alloc, &literal.what)?;
    match scalar {
        Scalar::Variable(number) => match filling.get(number) {
            Some(value) => Ok(value.equals(&printed)),
            None => Ok(false),
        },
        Scalar::Number(number) => Ok(Value::Int(number).equals(&printed)),
        Scalar::Truth(truth) => Ok(Value::Bool(truth).equals(&printed)),
        Scalar::Set(set) => match printed {
            Value::Set(other) => Ok(set.equals(&other)),
            Value::Int(_) | Value::Bool(_) => Ok(false),
        },
    }
}

/// The place, from 0, of the first of these scalars that hasn't the value of the literal beside it.
///
/// # Errors
///
/// Out of memory.
pub fn first_differing(
    alloc: Global,
    filling: &Partial,
    scalars: Scalars<'_>,
    literals: &[Literal],
) -> Result<Option<usize>, AllocError>
    ensures { IfOk result (λ o. o ≡ first_differing filling.now (scalar_terms scalars.entry)
        (map (λ l. literal_value (bare_literal l)) literals.now)) }
{
    for (place, literal) in literals.iter().enumerate() {
        let Some(scalar) = scalars.get(place) else {
            return Ok(None);
        };
        if !has_value(alloc, filling, scalar, literal)? {
            return Ok(Some(place));
        }
    }
    Ok(None)
}
