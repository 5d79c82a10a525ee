//! The second filling, where values that a solver left out are looked for: steps by whichever
//! result a row has, until no point gives one. In which order they are taken is left free: behind
//! each step the points that its variable is in are tried, and that nothing is left is seen by a
//! last pass over all points.

ghost use Rattle.std.specs.Prelude.{◌≡◌, ◌<◌, IfOk, IsTrue, OnOk, false};
ghost use Rattle.std.specs.List.{AllByRecursion};
ghost use Rattle.fz_index.specs.of_model.Aimed.{GivesNone};
ghost use Rattle.fz_index.specs.of_model.Meaning.{IsPartial, points};
ghost use Rattle.fz_index.specs.of_model.Partial.{unset_count};
ghost use Rattle.fz_filling.specs.Givers.{AddsSteps};
ghost use Rattle.fz_filling.specs.declared.completion.Completion.TheVariants.{On};

use crate::completion::Completion;
use crate::steps::{Steps, take_step};
use fz_index::{Place, Search, known_of};
use fz_store::{Model, Partial};
use std::alloc::{AllocError, Global};

/// Takes the step of each of these points that gives one.
fn visit(
    alloc: Global,
    model: &Model<'_>,
    partial: &mut Partial,
    steps: &mut Steps,
    places: &[Place],
) -> Result<(), AllocError>
    requires fits { IsPartial model.now partial.old }
    ensures steps { OnOk result
        (AddsSteps On model.now partial.old partial.new steps.old steps.new) }
    ensures kinds { OnOk result (IsPartial model.now partial.new) }
{
    for place in places {
        take_step(alloc, model, Completion::On, partial, steps, place.point)?;
    }
    Ok(())
}

/// Visits the points that the variables of steps are in, from the step with this index on, and then
/// those of the steps that were taken so. No variable gets two values, so there are at most as many
/// steps as variables.
fn follow(
    alloc: Global,
    model: &Model<'_>,
    search: &Search,
    partial: &mut Partial,
    steps: &mut Steps,
    first: usize,
) -> Result<(), AllocError>
    requires fits { IsPartial model.now partial.old }
    ensures steps { OnOk result
        (AddsSteps On model.now partial.old partial.new steps.old steps.new) }
    ensures kinds { OnOk result (IsPartial model.now partial.new) }
{
    for number in first..model.variables().len() {
        let Some(step) = steps.told.get(number).copied() else {
            return Ok(());
        };
        visit(
            alloc,
            model,
            partial,
            steps,
            search.places_of(step.variable),
        )?;
    }
    Ok(())
}

/// Takes the step of each point that gives one, in their order, and behind each those that follow
/// from it; tells whether there was one.
fn pass(
    alloc: Global,
    model: &Model<'_>,
    search: &Search,
    partial: &mut Partial,
    steps: &mut Steps,
) -> Result<bool, AllocError>
    requires fits { IsPartial model.now partial.old }
    ensures steps { OnOk result
        (AddsSteps On model.now partial.old partial.new steps.old steps.new) }
    ensures kinds { OnOk result (IsPartial model.now partial.new) }
    ensures fewer { IfOk result
        (λ b. IsTrue b → unset_count partial.new < unset_count partial.old) }
    ensures none { IfOk result
        (λ b. b ≡ false → AllByRecursion (GivesNone model.now partial.new) (points model.now)) }
{
    let mut took = false;
    for point in 0..model.points() {
        let first = steps.told.len();
        if take_step(alloc, model, Completion::On, partial, steps, point)? {
            took = true;
            follow(alloc, model, search, partial, steps, first)?;
        }
    }
    Ok(took)
}

/// Fills in what follows by whichever result a row has, and tells the steps behind those before.
/// Where each variable has a value it does nothing. It refuses only where memory runs out.
pub(crate) fn further(
    alloc: Global,
    model: &Model<'_>,
    known: &mut Option<Search>,
    partial: &mut Partial,
    steps: &mut Steps,
) -> Result<(), AllocError>
    requires fits { IsPartial model.now partial.old }
    ensures steps { OnOk result
        (AddsSteps On model.now partial.old partial.new steps.old steps.new) }
    ensures kinds { OnOk result (IsPartial model.now partial.new) }
    ensures none_left { OnOk result
        (AllByRecursion (GivesNone model.now partial.new) (points model.now)) }
{
    if partial.unset() == 0 {
        return Ok(());
    }
    let search = known_of(alloc, model, known)?;
    while pass(alloc, model, search, partial, steps)? {}
    Ok(())
}
