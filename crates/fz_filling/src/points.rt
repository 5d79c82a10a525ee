//! What fails and what is undecided of a model's points and of the objective.

ghost use Rattle.std.specs.Prelude.{◌≡◌, IfOk, map, option_map};
ghost use Rattle.fz_index.specs.of_model.Meaning.{first_some, number_at, objective, points, variables_of};
ghost use Rattle.fz_index.specs.of_model.Overviews.{IsOverview};
ghost use Rattle.fz_index.specs.of_model.Parts.{goal_view, variable_view};
ghost use Rattle.fz_index.specs.of_model.Shown.{point_name};
ghost use Rattle.fz_filling.specs.Verdict.{fault_named, first_unset, not_known_at, objective_fails, point_fails, point_undecided, too_large_at, verdict_by};
ghost use Rattle.fz_filling.specs.View.{fault_view, reason_view, verdict_view};
ghost use Rattle.fz_filling.specs.Working.{is_failed, reason_named};

use crate::verdict::{Fault, Reason, Verdict};
use fz_model::{Overview, all_hold, is_held, state};
use fz_store::{Goal, Model, Partial, Point, State, Term, Value, Variable};
use std::alloc::{AllocError, Global};

/// The fault of a point that fails.
pub fn fault_named(point: Point<'_>) -> Fault<'_>
    ensures { fault_view result ≡ fault_named (point_name point.entry) }
{
    match point {
        Point::Domain(name) => Fault::Domain(name),
        Point::Definition(name) => Fault::Definition(name),
        Point::Constraint(number, name) => Fault::Constraint(number, name),
    }
}

/// The name of the first variable without a value, in source order; empty where each has one.
fn first_unset<'a>(variables: &[Variable<'a>], values: &[Option<Value>]) -> &'a [u8]
    ensures { result.now ≡ first_unset (map variable_view variables.now) values.now }
{
    for (variable, value) in variables.iter().zip(values) {
        if value.is_none() {
            return variable.name;
        }
    }
    &[]
}

/// The reason that a constraint is unknown.
fn not_known(point: Point<'_>) -> Option<Reason<'_>>
    ensures { option_map reason_view result ≡ not_known_at (point_name point.entry) }
{
    match point {
        Point::Constraint(number, name) => Some(Reason::Unknown(number, name)),
        Point::Domain(_) => None,
        Point::Definition(_) => None,
    }
}

/// The reason that a sum of a constraint is too large.
fn too_large(point: Point<'_>) -> Option<Reason<'_>>
    ensures { option_map reason_view result ≡ too_large_at (point_name point.entry) }
{
    match point {
        Point::Constraint(number, _) => Some(Reason::TooLarge(number)),
        Point::Domain(_) => None,
        Point::Definition(_) => None,
    }
}

/// The reason that a point of a state is undecided, if it is.
fn undecided<'a>(
    model: &Model<'a>,
    partial: &Partial,
    point: Point<'a>,
    state: State,
) -> Option<Reason<'a>>
    ensures { option_map reason_view result ≡ reason_named
        (first_unset (variables_of model.now) partial.now) (point_name point.entry) state }
{
    match state {
        State::NoValue => Some(Reason::NoValue(first_unset(model.variables(), partial.values()))),
        State::Unknown => not_known(point),
        State::TooLarge => too_large(point),
        State::Holds => None,
        State::Fails => None,
    }
}

/// Whether the point fails.
fn is_failed(state: State) -> bool
    ensures { result ≡ is_failed state }
{
    matches!(state, State::Fails)
}

/// The first point that fails, or else the first that is undecided. Mostly all points hold, which
/// is seen soonest in another order than theirs.
pub fn points_verdict<'a>(
    alloc: Global,
    model: &Model<'a>,
    overview: &Overview,
    partial: &Partial,
) -> Result<Verdict<'a>, AllocError>
    requires overview { IsOverview model.now overview.now }
    ensures { IfOk result (λ v. verdict_view v ≡ verdict_by
        (first_some (point_fails partial.now) (points model.now))
        (first_some (point_undecided model.now partial.now) (points model.now))) }
{
    if all_hold(alloc, model, overview, partial)? {
        return Ok(Verdict::Satisfied);
    }
    let mut reason = None;
    for number in 0..model.points() {
        let found = state(alloc, model, number, partial)?;
        // A point's name is looked up only where the point doesn't hold, which is rare.
        if is_held(found) {
            continue;
        }
        let point = model.point(number);
        if is_failed(found) {
            return Ok(Verdict::Violated(fault_named(point)));
        }
        if reason.is_none() {
            reason = undecided(model, partial, point, found);
        }
    }
    match reason {
        Some(reason) => Ok(Verdict::Undecided(reason)),
        None => Ok(Verdict::Satisfied),
    }
}

/// The number that a scalar has, where it has one.
fn number_of(partial: &Partial, term: &Term) -> Option<i64>
    ensures { result ≡ number_at partial.now term.now }
{
    match partial.value(term)? {
        Value::Int(number) => Some(*number),
        Value::Bool(_) => None,
        Value::Set(_) => None,
    }
}

/// The number that is minimized or maximized, where it has a value.
pub fn objective(model: &Model<'_>, partial: &Partial) -> Option<i64>
    ensures { result ≡ objective model.now partial.now }
{
    match model.goal() {
        Goal::Satisfy => None,
        Goal::Minimize(term) => number_of(partial, term),
        Goal::Maximize(term) => number_of(partial, term),
    }
}

/// The fault of an objective that is not better than the one before; where one of them is missing
/// nothing is compared.
pub fn objective_fails<'a>(goal: &Goal, before: Option<i64>, now: Option<i64>) -> Option<Fault<'a>>
    ensures { option_map fault_view result ≡ objective_fails (goal_view goal.now) before now }
{
    let before = before?;
    let now = now?;
    let is_better = match goal {
        Goal::Satisfy => true,
        Goal::Minimize(_) => now < before,
        Goal::Maximize(_) => before < now,
    };
    if is_better {
        None
    } else {
        Some(Fault::NotBetter(now, before))
    }
}
