//! The product with which a sum of products leaves signed 128 bits.

ghost use Rattle.std.specs.Prelude.{◌≡◌, ◌<◌, ◌++◌, [], IfOk, OnOk, Some, length, map, slice_get};
ghost use Rattle.fz_filling.specs.of_model.Meaning.{Point, number_at, points};
ghost use Rattle.fz_filling.specs.of_model.States.{known_products, product_before};
ghost use Rattle.fz_filling.specs.of_model.Parts.{constraint_view};
ghost use Rattle.fz_filling.specs.of_model.Slots.{scalar_term};
ghost use Rattle.fz_explain.specs.Leaving.{first_leaving, leaving_in, leaving_of};

use crate::scalars::scalars_at;
use fz_places::Value;
use fz_store::{ConstraintParts, Model, Partial, PointParts, Scalar, Wide};
use std::alloc::{AllocError, Global};

/// The integer value of a scalar: of a literal, or of a variable that has a value.
fn number_at(filling: &Partial, scalar: Scalar<'_>) -> Option<i64>
    ensures { result ≡ number_at filling.now (scalar_term scalar.entry) }
{
    match scalar {
        Scalar::Variable(number) => match filling.get(number) {
            Some(Value::Int(number)) => Some(*number),
            _ => None,
        },
        Scalar::Number(number) => Some(number),
        Scalar::Truth(_) | Scalar::Set(_) => None,
    }
}

/// Adds the product of two numbers where both are there.
fn push_product(
    products: &mut Vec<i128>,
    left: Option<i64>,
    right: Option<i64>,
) -> Result<(), AllocError>
    ensures { OnOk result (products.new.items
        ≡ products.old.items ++ product_before left right []) }
{
    match (left, right) {
        (Some(left), Some(right)) => Ok(products.push(i128::from(left) * i128::from(right))?),
        _ => Ok(()),
    }
}

/// The products of two lists, at each index where both have a number.
fn products_of(
    alloc: Global,
    filling: &Partial,
    a: &[Scalar<'_>],
    b: &[Scalar<'_>],
) -> Result<Vec<i128>, AllocError>
    ensures { IfOk result (λ v. v.items
        ≡ known_products filling.now (map scalar_term a.now) (map scalar_term b.now)) }
{
    let mut products = Vec::new(alloc);
    for place in 0..a.len().min(b.len()) {
        let left = number_at(filling, a[place]);
        let right = number_at(filling, b[place]);
        push_product(&mut products, left, right)?;
    }
    Ok(products)
}

/// Of numbers that are added from the left, how many have been added when their sum first leaves
/// signed 128 bits.
fn first_leaving(numbers: &[i128]) -> Option<usize>
    ensures { result ≡ first_leaving numbers.now }
{
    let mut sum: i128 = 0;
    for (place, number) in numbers.iter().enumerate() {
        sum = match sum.checked_add(*number) {
            Some(more) => more,
            None => return Some(place + 1),
        };
    }
    None
}

/// The same of the first of a constraint's sums that leaves signed 128 bits.
fn leaving_of(
    alloc: Global,
    filling: &Partial,
    parts: &ConstraintParts<'_, '_>,
    numbers: &[Wide],
) -> Result<Option<usize>, AllocError>
    ensures { IfOk result (λ o. o ≡ leaving_of filling.now
        (constraint_view parts.now).arguments numbers.now) }
{
    for number in numbers {
        let Wide::Products(first, second) = *number else {
            continue;
        };
        let a = scalars_at(alloc, parts, first)?;
        let b = scalars_at(alloc, parts, second)?;
        if let Some(count) = first_leaving(&products_of(alloc, filling, &a, &b)?) {
            return Ok(Some(count));
        }
    }
    Ok(None)
}

/// Of a point that has a sum of products, the number, from 1, of the product with which the sum
/// leaves signed 128 bits, where they are added from the left; none where it doesn't leave them.
///
/// # Errors
///
/// Out of memory.
pub fn too_large_at(
    alloc: Global,
    model: &Model<'_>,
    filling: &Partial,
    point: usize,
) -> Result<Option<usize>, AllocError>
    requires in_range { point < length (points model.now) }
    ensures { IfOk result (λ o. (p : Point) → slice_get (points model.now) point ≡ Some p
        → o ≡ leaving_in filling.now p) }
{
    let PointParts::Constraint(parts) = model.point_parts(point) else {
        return Ok(None);
    };
    match parts.posted.known {
        Some(known) => leaving_of(alloc, filling, &parts, known.wide()),
        None => Ok(None),
    }
}
