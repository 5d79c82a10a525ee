//! The variables in a point.

ghost use Rattle.std.specs.Prelude.{◌≡◌, ◌<◌, IfOk, OnOk, Some, flat_map, length, map, slice_get};
ghost use Rattle.fz_filling.specs.of_model.Meaning.{Point, points, terms_in};
ghost use Rattle.fz_filling.specs.of_model.Parts.{argument_view, constraint_view};
ghost use Rattle.fz_filling.specs.of_model.Shown.{point_view, scalar_terms};
ghost use Rattle.fz_filling.specs.of_model.Slots.{scalar_term};
ghost use Rattle.fz_filling.specs.of_model.Steps.{terms_of};
ghost use Rattle.fz_explain.specs.Sources.{variables_in, with_term, with_terms};

use crate::scalars::{push_argument, push_list};
use fz_store::{Argument, ConstraintParts, Model, PointParts, Scalar, Term};
use indexmap::IndexSet;
use std::alloc::{AllocError, Global};

/// Numbers of variables, each once, in the order in which they were added.
pub(crate) type Variables = IndexSet<usize>;

/// Adds a scalar, where it is a variable.
pub(crate) fn add(variables: &mut Variables, scalar: Scalar<'_>) -> Result<(), AllocError>
    ensures { OnOk result (variables.new.keys
        ≡ with_term variables.old.keys (scalar_term scalar.entry)) }
{
    if let Scalar::Variable(number) = scalar {
        variables.insert(number)?;
    }
    Ok(())
}

/// Adds the variables among scalars.
pub(crate) fn add_all(variables: &mut Variables, scalars: &[Scalar<'_>]) -> Result<(), AllocError>
    ensures { OnOk result (variables.new.keys
        ≡ with_terms variables.old.keys (map scalar_term scalars.now)) }
{
    for scalar in scalars {
        add(variables, *scalar)?;
    }
    Ok(())
}

/// Adds the variables of an argument.
fn add_argument(
    alloc: Global,
    variables: &mut Variables,
    parts: &ConstraintParts<'_, '_>,
    argument: Argument,
) -> Result<(), AllocError>
    ensures { OnOk result (variables.new.keys ≡ with_terms variables.old.keys
        (terms_in (argument_view parts.now.variables.now parts.now.arrays.now parts.now.store.now
        argument))) }
{
    let mut scalars = Vec::new(alloc);
    push_argument(&mut scalars, parts, argument)?;
    add_all(variables, &scalars)
}

/// Adds the variables of a constraint.
fn add_arguments(
    alloc: Global,
    variables: &mut Variables,
    parts: &ConstraintParts<'_, '_>,
) -> Result<(), AllocError>
    ensures { OnOk result (variables.new.keys
        ≡ with_terms variables.old.keys (flat_map terms_in (constraint_view parts.now).arguments)) }
{
    for &argument in parts.arguments() {
        add_argument(alloc, variables, parts, argument)?;
    }
    Ok(())
}

/// Adds the variables of a point.
pub(crate) fn add_point(
    alloc: Global,
    variables: &mut Variables,
    parts: PointParts<'_, '_>,
) -> Result<(), AllocError>
    ensures { OnOk result (variables.new.keys
        ≡ with_terms variables.old.keys (terms_of (point_view parts.entry))) }
{
    match parts {
        PointParts::Domain(_, number) => add(variables, Scalar::Variable(number)),
        PointParts::Definition(_, number, term) => {
            add(variables, Scalar::Variable(number))?;
            add_term(variables, term)
        }
        PointParts::Elements(_, _, scalars) => {
            let mut all = Vec::new(alloc);
            push_list(&mut all, scalars.slots, scalars.constants)?;
            add_all(variables, &all)
        }
        PointParts::Constraint(parts) => add_arguments(alloc, variables, &parts),
    }
}

/// Adds a term, where it is a variable.
pub(crate) fn add_term(variables: &mut Variables, term: &Term) -> Result<(), AllocError>
    ensures { OnOk result (variables.new.keys ≡ with_term variables.old.keys term.now) }
{
    match term {
        Term::Var(number) => add(variables, Scalar::Variable(*number)),
        Term::Fixed(_) => Ok(()),
    }
}

/// The variables in the point with this number, from 0, each once, in the order in which they first
/// occur.
///
/// # Errors
///
/// Out of memory.
pub fn variables_of(
    alloc: Global,
    model: &Model<'_>,
    point: usize,
) -> Result<Vec<usize>, AllocError>
    requires in_range { point < length (points model.now) }
    ensures { IfOk result (λ v. (p : Point) → slice_get (points model.now) point ≡ Some p
        → v.items ≡ variables_in p) }
{
    let mut variables = IndexSet::new(alloc);
    add_point(alloc, &mut variables, model.point_parts(point))?;
    Vec::from_slice(alloc, variables.as_slice())
}
