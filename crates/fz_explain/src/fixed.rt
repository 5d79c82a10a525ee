//! Parameters, and arrays of fixed values, by their names.

ghost use Rattle.std.specs.Prelude.{◌≡◌, [], ◌∷◌, IfOk, false, map, option_map, true};
ghost use Rattle.fz_filling.specs.of_model.Shown.{scalar_terms};
ghost use Rattle.fz_filling.specs.of_model.Slots.{scalar_term, slot_term};
ghost use Rattle.fz_explain.specs.Fixings.{fixed_value, fixed_values, fixing, fixing_view};

use fz_places::Value;
use fz_store::{Model, Scalar, Scalars, What, scalar_at};
use std::alloc::{AllocError, Global};

/// What a name stands for: of a parameter the only value, of an array those of its elements.
#[derive(Drop)]
pub struct Fixing {
    pub is_array: bool,
    pub values: Vec<Value>,
}

/// The value of a scalar that is no variable.
pub(crate) fn value_of(alloc: Global, scalar: Scalar<'_>) -> Result<Option<Value>, AllocError>
    ensures { IfOk result (λ o. o ≡ fixed_value (scalar_term scalar.entry)) }
{
    match scalar {
        Scalar::Variable(_) => Ok(None),
        Scalar::Number(number) => Ok(Some(Value::Int(number))),
        Scalar::Truth(truth) => Ok(Some(Value::Bool(truth))),
        Scalar::Set(set) => Ok(Some(Value::Set(set.copy(alloc)?))),
    }
}

/// The values of scalars of which none is a variable.
fn values_of(alloc: Global, scalars: Scalars<'_>) -> Result<Option<Vec<Value>>, AllocError>
    ensures { IfOk result (λ o. option_map (λ v. v.items) o
        ≡ fixed_values (scalar_terms scalars.entry)) }
{
    let mut values = Vec::new(alloc);
    for slot in scalars.slots {
        let Some(value) = value_of(alloc, scalar_at(scalars.constants, *slot))? else {
            return Ok(None);
        };
        values.push(value)?;
    }
    Ok(Some(values))
}

/// What a name stands for, where that is a parameter, or an array without variables; none where
/// it stands for anything else, or for nothing.
///
/// # Errors
///
/// Out of memory.
pub fn fixing_of(
    alloc: Global,
    model: &Model<'_>,
    name: &[u8],
) -> Result<Option<Fixing>, AllocError>
    ensures { IfOk result (λ o. option_map fixing_view o ≡ fixing model.now name.now) }
{
    let Some(found) = model.find(name) else {
        return Ok(None);
    };
    match found.what {
        What::Scalar(scalar) => parameter(alloc, scalar),
        What::Array(_, scalars) => elements(alloc, scalars),
    }
}

/// The values of the elements of an array.
fn elements(alloc: Global, scalars: Scalars<'_>) -> Result<Option<Fixing>, AllocError>
    ensures { IfOk result (λ o. option_map fixing_view o
        ≡ option_map (λ vs. (true, vs)) (fixed_values (scalar_terms scalars.entry))) }
{
    let Some(values) = values_of(alloc, scalars)? else {
        return Ok(None);
    };
    Ok(Some(Fixing {
        is_array: true,
        values,
    }))
}

/// The value of a parameter.
fn parameter(alloc: Global, scalar: Scalar<'_>) -> Result<Option<Fixing>, AllocError>
    ensures { IfOk result (λ o. option_map fixing_view o
        ≡ option_map (λ vs. (false, vs)) (fixed_values (scalar_term scalar.entry ∷ []))) }
{
    let Some(value) = value_of(alloc, scalar)? else {
        return Ok(None);
    };
    let mut values = Vec::new(alloc);
    values.push(value)?;
    Ok(Some(Fixing {
        is_array: false,
        values,
    }))
}
