//! The state of a point.

ghost use Rattle.std.specs.Prelude.{◌≡◌, ◌<◌, IfOk, Some, length, option_map, slice_get};
ghost use Rattle.fz_builtins.specs.of_meaning.Known.{known_row};
ghost use Rattle.fz_builtins.specs.of_meaning.Meaning.{Point, points, row_of};
ghost use Rattle.fz_builtins.specs.of_meaning.States.{state};
ghost use Rattle.fz_builtins.specs.of_store.Parts.{constraint_view};
ghost use Rattle.fz_builtins.specs.of_store.Shown.{IfConstraint, point_view};

use crate::constraints::of_constraint;
use crate::domains::{of_definition, of_domain, of_elements};
use fz_store::{Model, Partial, PointParts, State};
use std::alloc::{AllocError, Global};

/// The state of a point with its parts.
#[inline(always)]
fn of_point(
    alloc: Global,
    point: PointParts<'_, '_>,
    partial: &Partial,
) -> Result<State, AllocError>
    requires known { IfConstraint point
        (λ c. option_map known_row c.posted.now.known ≡ row_of (constraint_view c)) }
    ensures exact { IfOk result (λ s. s ≡ state partial.now (point_view point.entry)) }
{
    match point {
        PointParts::Domain(variable, place) => Ok(of_domain(&variable.domain, partial.get(place))),
        PointParts::Definition(_, place, term) => {
            Ok(of_definition(partial.get(place), partial.value(term)))
        }
        PointParts::Elements(_, domain, elements) => Ok(of_elements(partial, domain, elements)),
        PointParts::Constraint(parts) => of_constraint(alloc, parts, partial),
    }
}

/// The state of the point of a number, from 0, under a partial assignment. Rows that compare or
/// sort many values take memory (all different, counts of values, cardinality, sorting, chains of
/// precedence, subcircuits, partitions), and so may unions, sections and differences of sets; it
/// refuses only where there is none.
#[inline]
pub fn state(
    alloc: Global,
    model: &Model<'_>,
    number: usize,
    partial: &Partial,
) -> Result<State, AllocError>
    requires in_range { number < length (points model.now) }
    ensures exact { IfOk result (λ s. (p : Point) → slice_get (points model.now) number ≡ Some p
        → s ≡ state partial.now p) }
{
    of_point(alloc, model.point_parts(number), partial)
}
