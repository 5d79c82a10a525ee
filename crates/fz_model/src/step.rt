//! The step that a point forces.

ghost use Rattle.std.specs.Prelude.{◌≡◌, ◌<◌, ◌↔◌, IfOk, IfSome, IsNone, IsTrue, Some, length, slice_get};
ghost use Rattle.fz_builtins.specs.of_meaning.Meaning.{IsPartial, Model as Meaning, Point, Variable as Declared, points};
ghost use Rattle.fz_builtins.specs.of_meaning.Meaning.Point.{DefinitionPoint, DomainPoint};
ghost use Rattle.fz_builtins.specs.of_meaning.Steps.{Gives, GivesNothing, kind_at};
ghost use Rattle.fz_builtins.specs.of_meaning.declared.kind.Kind.TheVariants.{Int as IntKind};
ghost use Rattle.fz_builtins.specs.of_store.Parts.{variable_view};
ghost use Rattle.fz_model.specs.Aimed.{GivesAny, GivesNone};
ghost use Rattle.fz_model.specs.Forced.{IsFitting, IsForced, IsOnlyNumber};

use crate::row::{by_any_result, by_row};
use fz_store::{
    Domain, Kind, Model, Partial, PointParts, Term, Value, Variable, kind_of, same_kind,
};
use std::alloc::{AllocError, Global};

/// The forced step of the point of a number: the variable's number and the value that the point
/// gives it; none where the point gives nothing. It refuses only where memory runs out.
#[inline(always)]
pub fn forced(
    alloc: Global,
    model: &Model<'_>,
    number: usize,
    partial: &Partial,
) -> Result<Option<(usize, Value)>, AllocError>
    requires in_range { number < length (points model.now) }
    requires fits { IsPartial model.now partial.now }
    ensures given { IfOk result (λ o. IfSome o (λ r. (p : Point)
        → slice_get (points model.now) number ≡ Some p → Gives model.now partial.now p r.0 r.1)) }
    ensures nothing { IfOk result (λ o. IsNone o → (p : Point)
        → slice_get (points model.now) number ≡ Some p → GivesNothing model.now partial.now p) }
{
    match model.point_parts(number) {
        PointParts::Domain(variable, own) => Ok(by_domain(variable, own, partial)),
        PointParts::Definition(_, own, side) => by_definition(alloc, model, own, side, partial),
        PointParts::Elements(..) => Ok(None),
        PointParts::Constraint(parts) => by_row(alloc, parts, partial),
    }
}

/// The step of the point of a number by any result of its row: as that of `forced`, but a
/// constraint may give its value to each variable that `defines_var` might name. It refuses only
/// where memory runs out.
pub fn forced_any(
    alloc: Global,
    model: &Model<'_>,
    number: usize,
    partial: &Partial,
) -> Result<Option<(usize, Value)>, AllocError>
    requires in_range { number < length (points model.now) }
    requires fits { IsPartial model.now partial.now }
    ensures given { IfOk result (λ o. IfSome o (λ r. (p : Point)
        → slice_get (points model.now) number ≡ Some p
        → GivesAny model.now partial.now p r.0 r.1)) }
    ensures nothing { IfOk result (λ o. IsNone o → (p : Point)
        → slice_get (points model.now) number ≡ Some p → GivesNone model.now partial.now p) }
{
    match model.point_parts(number) {
        PointParts::Domain(..) => forced(alloc, model, number, partial),
        PointParts::Definition(..) => forced(alloc, model, number, partial),
        PointParts::Elements(..) => Ok(None),
        PointParts::Constraint(parts) => by_any_result(alloc, parts, partial),
    }
}

// What the domain of a variable forces: its one number.
fn by_domain(variable: &Variable<'_>, number: usize, partial: &Partial) -> Option<(usize, Value)>
    ensures { (m : Meaning) → IsPartial m partial.now → kind_at m number ≡ Some variable.now.kind
        → IsForced m partial.now (DomainPoint (variable_view variable.now) number) result }
{
    if partial.get(number).is_some() || !is_int(variable.kind) {
        return None;
    }
    let only = only_number(&variable.domain)?;
    Some((number, Value::Int(only)))
}

// What a definition forces: the value of one side for a variable without one on the other.
fn by_definition(
    alloc: Global,
    model: &Model<'_>,
    number: usize,
    side: &Term,
    partial: &Partial,
) -> Result<Option<(usize, Value)>, AllocError>
    requires fits { IsPartial model.now partial.now }
    ensures { (x : Declared) → IfOk result
        (λ o. IsForced model.now partial.now (DefinitionPoint x number side.now) o) }
{
    match partial.get(number) {
        Some(value) => match side {
            Term::Fixed(_) => Ok(None),
            Term::Var(other) => {
                let given = partial.get(*other);
                if given.is_some() {
                    return Ok(None);
                }
                Ok(fitting(model, *other, value.copy(alloc)?))
            }
        },
        None => match partial.value(side) {
            Some(value) => Ok(fitting(model, number, value.copy(alloc)?)),
            None => Ok(None),
        },
    }
}

/// The one number of a domain, where it has exactly one. It takes no memory.
pub fn only_number(domain: &Domain) -> Option<i64>
    ensures exact { IsOnlyNumber domain.now result }
{
    match domain {
        Domain::All => None,
        Domain::Within(lo, hi) => { if *lo == *hi { Some(*lo) } else { None } }
        Domain::Among(numbers) => numbers.only(),
    }
}

// A variable with a value, where the value is of its kind.
fn fitting(model: &Model<'_>, number: usize, value: Value) -> Option<(usize, Value)>
    ensures { IsFitting model.now number value result }
{
    let variable = model.variables().get(number)?;
    if same_kind(kind_of(&value), variable.kind) {
        Some((number, value))
    } else {
        None
    }
}

fn is_int(kind: Kind) -> bool
    ensures { IsTrue result ↔ (kind ≡ IntKind) }
{
    matches!(kind, Kind::Int)
}
