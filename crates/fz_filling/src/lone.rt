//! Whether no two points of a model can give the same variable a value.

ghost use Rattle.std.specs.Prelude.{◌≡◌, ◌<◌, ℕ, IfOk, IfSome, IsTrue, Some, slice_get, suc};
ghost use Rattle.fz_index.specs.of_model.Shown.{point_view};
ghost use Rattle.fz_filling.specs.Courses.{AreKept, AreLone, IsNoted};

use fz_index::order_of;
use fz_model::only_number;
use fz_store::{Model, PointParts, Term};
use std::alloc::{AllocError, Global};

/// Stores that a point can give a variable a value; `true` where it is the only one so far. The
/// number of its point, counted from 1, is stored for each variable.
fn note(givers: &mut Vec<usize>, variable: usize, point: usize) -> bool
    requires { point < usize.MAX }
    ensures noted { IsTrue result → slice_get givers.new.items variable ≡ Some (suc point) }
    ensures kept { AreKept givers.old.items givers.new.items }
{
    if variable >= givers.len() {
        return false;
    }
    if givers[variable] == 0 {
        givers[variable] = point + 1;
    }
    givers[variable] == point + 1
}

/// Stores this of each variable that a point can give a value; `true` where no other point so far
/// can.
fn note_all(givers: &mut Vec<usize>, parts: &PointParts<'_, '_>, point: usize) -> bool
    requires { point < usize.MAX }
    ensures noted { IsTrue result → IsNoted givers.new.items point (point_view parts.now) }
    ensures kept { AreKept givers.old.items givers.new.items }
{
    match parts {
        PointParts::Domain(variable, own) => match only_number(&variable.domain) {
            Some(_) => note(givers, *own, point),
            None => true,
        },
        PointParts::Definition(_, own, side) => note_sides(givers, *own, side, point),
        PointParts::Elements(..) => true,
        PointParts::Constraint(parts) => match parts.posted.target {
            Some(target) => note(givers, target, point),
            None => true,
        },
    }
}

/// Stores this of both sides of a definition.
fn note_sides(givers: &mut Vec<usize>, own: usize, side: &Term, point: usize) -> bool
    requires { point < usize.MAX }
    ensures own { IsTrue result → slice_get givers.new.items own ≡ Some (suc point) }
    ensures side { IsTrue result → (n : ℕ) → side.now ≡ Term.Var n
        → slice_get givers.new.items n ≡ Some (suc point) }
    ensures kept { AreKept givers.old.items givers.new.items }
{
    if !note(givers, own, point) {
        return false;
    }
    match side {
        Term::Var(other) => note(givers, *other, point),
        Term::Fixed(_) => true,
    }
}

/// For each variable one more than the number of the point that can give it a value, and 0 where
/// none can; nothing where two points can give the same variable one. It goes over the points once.
fn lone_givers(alloc: Global, model: &Model<'_>) -> Result<Option<Vec<usize>>, AllocError>
    ensures { IfOk result (λ o. IfSome o (λ _. AreLone model.now)) }
{
    let mut givers = Vec::new(alloc);
    givers.resize(model.variables().len(), 0)?;
    for point in 0..model.points() {
        if !note_all(&mut givers, &model.point_parts(point), point) {
            return Ok(None);
        }
    }
    Ok(Some(givers))
}

/// The points that can give values, in the order to try them in; nothing where two points can give
/// the same variable a value, so that the order matters.
pub(crate) fn lone_order(alloc: Global, model: &Model<'_>) -> Result<Option<Vec<usize>>, AllocError>
    ensures { IfOk result (λ o. IfSome o (λ _. AreLone model.now)) }
{
    match lone_givers(alloc, model)? {
        Some(givers) => Ok(Some(order_of(alloc, model, givers)?)),
        None => Ok(None),
    }
}
