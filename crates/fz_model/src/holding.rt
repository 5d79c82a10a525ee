//! Whether all points hold.

ghost use Rattle.std.specs.Prelude.{◌≡◌, ◌<◌, IfOk, length, option_map, true};
ghost use Rattle.std.specs.List.{AllByRecursion, list_all};
ghost use Rattle.fz_builtins.specs.of_meaning.Known.{known_row};
ghost use Rattle.fz_builtins.specs.of_meaning.Meaning.{points, row_of, variables_of};
ghost use Rattle.fz_builtins.specs.of_store.Parts.{constraint_view};
ghost use Rattle.fz_model.specs.Holding.{is_held, point_holds, posted_holds};
ghost use Rattle.fz_model.specs.Overviews.{IsOverview, holds_at};
ghost use Rattle.fz_model.specs.Whole.{IsReady, lie_inside};

use crate::constraints::of_ready;
use crate::overview::Overview;
use crate::points::state;
use crate::whole::lie_inside;
use fz_kernel::ArgumentView;
use fz_store::{ConstraintParts, Model, Partial, State, item_at};
use std::alloc::{AllocError, Global};

/// Whether a point of this state holds.
pub fn is_held(state: State) -> bool
    ensures { result ≡ is_held state }
{
    matches!(state, State::Holds)
}

/// Whether the points of these numbers hold.
fn others_hold(
    alloc: Global,
    model: &Model<'_>,
    others: &[usize],
    partial: &Partial,
) -> Result<bool, AllocError>
    requires in_range { AllByRecursion (λ n. n < length (points model.now)) others.now }
    ensures { IfOk result (λ b. b ≡ list_all (holds_at partial.now (points model.now)) others.now) }
{
    for place in 0..others.len() {
        let found = state(alloc, model, others[place], partial)?;
        if !is_held(found) {
            return Ok(false);
        }
    }
    Ok(true)
}

/// Whether each point holds.
fn each_holds(alloc: Global, model: &Model<'_>, partial: &Partial) -> Result<bool, AllocError>
    ensures { IfOk result (λ b. b ≡ list_all (point_holds partial.now) (points model.now)) }
{
    for number in 0..model.points() {
        let found = state(alloc, model, number, partial)?;
        if !is_held(found) {
            return Ok(false);
        }
    }
    Ok(true)
}

/// Whether a constraint holds whose scalars have values of the kinds that its row asks for.
#[inline(always)]
fn constraint_holds(
    alloc: Global,
    parts: ConstraintParts<'_, '_>,
    partial: &Partial,
) -> Result<bool, AllocError>
    requires known { option_map known_row parts.posted.now.known ≡ row_of (constraint_view parts) }
    requires ready { IsReady partial.now (constraint_view parts) }
    ensures { IfOk result (λ b. b ≡ posted_holds partial.now (constraint_view parts.entry)) }
{
    let Some(known) = parts.posted.known else {
        return Ok(false);
    };
    let found = of_ready(alloc, known, &ArgumentView::new(parts, partial))?;
    Ok(is_held(found))
}

/// Whether the constraints hold, where the values lie inside their domains, so that all are ready.
fn constraints_hold(alloc: Global, model: &Model<'_>, partial: &Partial) -> Result<bool, AllocError>
    requires inside { lie_inside (variables_of model.now) partial.now ≡ true }
    ensures { IfOk result (λ b. b ≡ list_all (posted_holds partial.now) model.now.constraints) }
{
    let all = model.constraints();
    for place in 0..all.posted.len() {
        let parts = ConstraintParts {
            number: place + 1,
            posted: item_at(all.posted, place),
            variables: all.variables,
            arrays: all.arrays,
            store: all.store,
        };
        if !constraint_holds(alloc, parts, partial)? {
            return Ok(false);
        }
    }
    Ok(true)
}

/// Whether all points hold under a partial assignment. Where the values are known to lie inside
/// their domains, that isn't tested again, nor whether constraints are ready. It takes memory where
/// `state` does, and refuses only where there is none.
pub fn all_hold(
    alloc: Global,
    model: &Model<'_>,
    overview: &Overview,
    partial: &Partial,
) -> Result<bool, AllocError>
    requires overview { IsOverview model.now overview.now }
    ensures exact { IfOk result (λ b. b ≡ list_all (point_holds partial.now) (points model.now)) }
{
    if !lie_inside(model.variables(), partial.values()) {
        return each_holds(alloc, model, partial);
    }
    if !others_hold(alloc, model, &overview.others, partial)? {
        return Ok(false);
    }
    constraints_hold(alloc, model, partial)
}
