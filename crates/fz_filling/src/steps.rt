//! Forced steps: first those of the points in an order that was made for the model, if one was, and
//! then one after another, in the order of the points, until none is left.

ghost use Rattle.std.specs.Prelude.{◌≡◌, ◌≤◌, ◌<◌, ◌∷◌, [], IfOk, IfSome, IsNone, IsTrue, OnOk, Some, false, length, slice_get};
ghost use Rattle.std.specs.List.{AllByRecursion};
ghost use Rattle.fz_index.specs.of_model.Meaning.{IsPartial, Point, points};
ghost use Rattle.fz_index.specs.of_model.Partial.{unset_count};
ghost use Rattle.fz_index.specs.of_model.Steps.{GivesNothing};
ghost use Rattle.fz_filling.specs.Filling.{Chain, IsFirstStep, IsGivenBy};
ghost use Rattle.fz_filling.specs.Givers.{AddsSteps, Appends, giver_view};
ghost use Rattle.fz_filling.specs.Stepping.{GivesNoneAt, IsStepAhead, NoneGives};
ghost use Rattle.fz_filling.specs.declared.completion.Completion.TheVariants.{Off};

use crate::completion::Completion;
use fz_model::{forced, forced_any};
use fz_store::{Model, Partial, Value};
use std::alloc::{AllocError, Global};

/// A forced step: the number of the point that gives it, the variable's number, and the value.
#[derive(Drop)]
struct Step {
    point: usize,
    variable: usize,
    value: Value,
}

/// A step that was taken: the numbers, from 0, of the variable that got a value and of the point
/// that gave it.
#[derive(Clone, Copy, Debug, PartialEq, Eq)]
pub struct Giver {
    pub variable: usize,
    pub point: usize,
}

/// The steps that were taken, in their order, where they are to be told.
#[derive(Drop)]
pub(crate) struct Steps {
    pub(crate) told: Vec<Giver>,
    pub(crate) is_told: bool,
}

impl Steps {
    /// None so far. Those of a second filling are told, since it goes from one to the next.
    pub(crate) fn for_completion(alloc: Global, completion: Completion) -> Steps {
        Steps {
            told: Vec::new(alloc),
            is_told: completion == Completion::On,
        }
    }

    /// Tells a step behind those before.
    #[inline(always)]
    fn note(&mut self, giver: Giver) -> Result<(), AllocError>
        ensures { OnOk result (Appends (giver_view giver ∷ []) self.old self.new) }
    {
        if self.is_told {
            self.told.push(giver)?;
        }
        Ok(())
    }
}

/// The first step of the points from a number up to another.
fn step_between(
    alloc: Global,
    model: &Model<'_>,
    partial: &Partial,
    from: usize,
    to: usize,
) -> Result<Option<Step>, AllocError>
    requires fits { IsPartial model.now partial.now }
    requires in_order { from ≤ to }
    requires in_range { to ≤ length (points model.now) }
    ensures first { IfOk result (λ o. IfSome o
        (λ s. IsStepAhead model.now partial.now from to s.point s.variable s.value)) }
    ensures none { IfOk result (λ o. IsNone o → NoneGives model.now partial.now from to) }
{
    for point in from..to {
        if let Some((variable, value)) = forced(alloc, model, point, partial)? {
            return Ok(Some(Step {
                point,
                variable,
                value,
            }));
        }
    }
    Ok(None)
}

/// The first step of all points, counted on from the one of a number. Once each variable has a
/// value there is none.
fn next_step(
    alloc: Global,
    model: &Model<'_>,
    partial: &Partial,
    from: usize,
) -> Result<Option<Step>, AllocError>
    requires fits { IsPartial model.now partial.now }
    requires in_range { from ≤ length (points model.now) }
    ensures first { IfOk result (λ o. IfSome o
        (λ s. IsFirstStep model.now partial.now from s.point s.variable s.value)) }
    ensures in_range { IfOk result (λ o. IfSome o (λ s. s.point ≤ length (points model.now))) }
    ensures none { IfOk result (λ o. IsNone o
        → AllByRecursion (GivesNothing model.now partial.now) (points model.now)) }
{
    if partial.unset() == 0 {
        return Ok(None);
    }
    let ahead = step_between(alloc, model, partial, from, model.points())?;
    if ahead.is_some() {
        return Ok(ahead);
    }
    step_between(alloc, model, partial, 0, from)
}

/// Takes one step after another, in the order of the points, until none is left, and tells them
/// behind those before.
pub(crate) fn fill_on(
    alloc: Global,
    model: &Model<'_>,
    partial: &mut Partial,
    steps: &mut Steps,
) -> Result<(), AllocError>
    requires fits { IsPartial model.now partial.old }
    ensures filled { OnOk result (Chain model.now partial.old 0 partial.new) }
    ensures steps { OnOk result
        (AddsSteps Off model.now partial.old partial.new steps.old steps.new) }
    ensures kinds { OnOk result (IsPartial model.now partial.new) }
{
    let mut from = 0;
    while let Some(step) = next_step(alloc, model, partial, from)? {
        let giver = Giver {
            variable: step.variable,
            point: step.point,
        };
        partial.set(step.variable, step.value);
        steps.note(giver)?;
        from = giver.point;
    }
    Ok(())
}

/// The step that the point of a number gives: a constraint to its defined variable, or, where
/// values that a solver left out are looked for, by any result of its row.
#[inline(always)]
fn forced_by(
    alloc: Global,
    model: &Model<'_>,
    completion: Completion,
    point: usize,
    partial: &Partial,
) -> Result<Option<(usize, Value)>, AllocError>
    requires in_range { point < length (points model.now) }
    requires fits { IsPartial model.now partial.now }
    ensures given { IfOk result (λ o. IfSome o (λ r. (p : Point)
        → slice_get (points model.now) point ≡ Some p
        → IsGivenBy completion model.now partial.now p r.0 r.1)) }
    ensures nothing { IfOk result
        (λ o. IsNone o → GivesNoneAt completion model.now partial.now point) }
{
    match completion {
        Completion::Off => forced(alloc, model, point, partial),
        Completion::On => forced_any(alloc, model, point, partial),
    }
}

/// Takes the step that the point of a number gives, and tells whether there was one.
#[inline(always)]
pub(crate) fn take_step(
    alloc: Global,
    model: &Model<'_>,
    completion: Completion,
    partial: &mut Partial,
    steps: &mut Steps,
    point: usize,
) -> Result<bool, AllocError>
    requires fits { IsPartial model.now partial.old }
    ensures steps { OnOk result
        (AddsSteps completion model.now partial.old partial.new steps.old steps.new) }
    ensures kinds { OnOk result (IsPartial model.now partial.new) }
    ensures fewer { IfOk result
        (λ b. IsTrue b → unset_count partial.new < unset_count partial.old) }
    ensures none { IfOk result (λ b. b ≡ false → (partial.new ≡ partial.old)
        × GivesNoneAt completion model.now partial.new point) }
{
    if point >= model.points() {
        return Ok(false);
    }
    let Some((variable, value)) = forced_by(alloc, model, completion, point, partial)? else {
        return Ok(false);
    };
    partial.set(variable, value);
    steps.note(Giver { variable, point })?;
    Ok(true)
}

/// Takes the step of each of these points that gives one, in their order.
pub(crate) fn fill_along(
    alloc: Global,
    model: &Model<'_>,
    partial: &mut Partial,
    steps: &mut Steps,
    order: &[usize],
) -> Result<(), AllocError>
    requires fits { IsPartial model.now partial.old }
    ensures steps { OnOk result
        (AddsSteps Off model.now partial.old partial.new steps.old steps.new) }
    ensures kinds { OnOk result (IsPartial model.now partial.new) }
{
    for point in order {
        take_step(alloc, model, Completion::Off, partial, steps, *point)?;
    }
    Ok(())
}
