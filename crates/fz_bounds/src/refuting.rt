//! Points that cannot hold inside bounds.

ghost use Rattle.std.specs.Prelude.{◌≡◌, ◌<◌, IfOk, IsTrue, Some, length, option_map};
ghost use Rattle.fz_model.specs.of_builtins.of_meaning.Known.{known_row};
ghost use Rattle.fz_model.specs.Meaning.{points, row_of};
ghost use Rattle.fz_model.specs.Parts.{constraint_view};
ghost use Rattle.fz_model.specs.Shown.{IfConstraint, point_view};
ghost use Rattle.fz_bounds.specs.Bounds.{NeverHolds, NumberNeverHolds};

use crate::bounds::Bounds;
use crate::declarations::{definition_fails, elements_fail, lies_outside};
use crate::rows::row_fails;
use fz_model::state;
use fz_store::{Model, PointParts, State};
use std::alloc::{AllocError, Global};

/// Whether the point of a number, from 0, is found to hold under no assignment inside the bounds. A
/// constraint without a row never is.
///
/// # Errors
///
/// Out of memory.
pub fn cannot_hold(
    alloc: Global,
    model: &Model<'_>,
    point: usize,
    bounds: &Bounds,
) -> Result<bool, AllocError>
    requires in_range { point < length (points model.now) }
    ensures never { IfOk result (λ b. IsTrue b → NumberNeverHolds model.now point bounds.now) }
{
    let found = state(alloc, model, point, bounds.fixed())?;
    match found {
        State::Fails => Ok(true),
        _ => parts_fail(alloc, &model.point_parts(point), bounds),
    }
}

/// The same of a point with its parts, by its bounds alone.
fn parts_fail(
    alloc: Global,
    parts: &PointParts<'_, '_>,
    bounds: &Bounds,
) -> Result<bool, AllocError>
    requires known { IfConstraint parts.now
        (λ c. option_map known_row c.posted.now.known ≡ row_of (constraint_view c)) }
    ensures { IfOk result (λ b. IsTrue b → NeverHolds bounds.now (point_view parts.now)) }
{
    match parts {
        PointParts::Domain(variable, number) => {
            Ok(lies_outside(&variable.domain, *number, bounds))
        }
        PointParts::Definition(_, number, term) => Ok(definition_fails(*number, term, bounds)),
        PointParts::Elements(_, domain, elements) => Ok(elements_fail(domain, elements, bounds)),
        PointParts::Constraint(constraint) => row_fails(alloc, constraint, bounds),
    }
}
