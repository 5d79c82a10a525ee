//! The values so far: at each step a partial assignment of the model.

ghost use Rattle.std.specs.Prelude.{◌≡◌, IfOk, IsTrue, Some};
ghost use Rattle.fz_bounds.specs.of_model.Meaning.{IsPartial};
ghost use Rattle.fz_bounds.specs.of_model.Steps.{kind_at};
ghost use Rattle.fz_bounds.specs.of_model.Relations.{kind_of};

use fz_model::{forced_any, state};
use fz_store::{Model, Partial, State, Value, kind_of, same_kind};
use std::alloc::{AllocError, Global};

/// Whether a value is of the kind of the variable of a number.
fn suits(model: &Model<'_>, number: usize, value: &Value) -> bool
    ensures { IsTrue result → kind_at model.now number ≡ Some (kind_of value.now) }
{
    match model.variables().get(number) {
        Some(variable) => same_kind(kind_of(value), variable.kind),
        None => false,
    }
}

/// Gives a variable without a value one of its kind, and tells whether it did.
fn give(model: &Model<'_>, partial: &mut Partial, number: usize, value: Value) -> bool
    requires fits { IsPartial model.now partial.old }
    ensures fits { IsPartial model.now partial.new }
{
    if partial.has(number) || !suits(model, number, &value) {
        return false;
    }
    partial.set(number, value);
    true
}

/// Takes the value of a variable away, where it has one.
fn take_away(model: &Model<'_>, partial: &mut Partial, number: usize)
    requires fits { IsPartial model.now partial.old }
    ensures fits { IsPartial model.now partial.new }
{
    partial.take_away(number);
}

/// A copy of the values, each of which is of its variable's kind.
pub(crate) fn copied(
    alloc: Global,
    model: &Model<'_>,
    values: &Partial,
) -> Result<Partial, AllocError>
    ensures kinds { IfOk result (IsPartial model.now) }
{
    let mut partial = Partial::new(alloc, model)?;
    for number in 0..model.variables().len() {
        if let Some(value) = values.get(number) {
            give(model, &mut partial, number, value.copy(alloc)?);
        }
    }
    Ok(partial)
}

/// Values of some of a model's variables, each of its variable's kind.
#[derive(Drop)]
pub(crate) struct Proposal<'m, 'a> {
    model: &'m Model<'a>,
    partial: Partial,
}

impl<'m, 'a> std::marker::Model for Proposal<'m, 'a> {
    ghost use Rattle.std.specs.Prelude.{List, Option};
    ghost use Rattle.fz_bounds.specs.of_model.of_base.declared.value.Value.{Value as Held};
    ghost use Rattle.fz_bounds.specs.of_model.of_base.contracts.sets.IntSet as the_set;
    ghost use Rattle.std.specs.Coded.{codes};

    ghost Value = { List (Option Held) };

    ghost coded = { Prim.hlevel (codes, the_set.the_row.coded) };

    ghost use Rattle.fz_bounds.specs.of_model.Meaning.{IsPartial};

    ghost view = { λ p. p.partial };

    ghost invariant = { λ p. IsPartial p.model.now p.partial };
}

impl<'m, 'a> Proposal<'m, 'a> {
    pub(crate) fn new(
        alloc: Global,
        model: &'m Model<'a>,
        filling: &Partial,
    ) -> Result<Proposal<'m, 'a>, AllocError> {
        let partial = copied(alloc, model, filling)?;
        Ok(Proposal { model, partial })
    }

    pub(crate) fn values(&self) -> &Partial {
        &self.partial
    }

    pub(crate) fn has(&self, number: usize) -> bool {
        self.partial.has(number)
    }

    /// Gives a variable without a value one of its kind, and tells whether it did.
    pub(crate) fn give(&mut self, number: usize, value: Value) -> bool {
        give(self.model, &mut self.partial, number, value)
    }

    pub(crate) fn take_away(&mut self, number: usize) {
        take_away(self.model, &mut self.partial, number);
    }

    /// The step that a point gives, by whichever result it has.
    pub(crate) fn forced(
        &self,
        alloc: Global,
        point: usize,
    ) -> Result<Option<(usize, Value)>, AllocError> {
        if point < self.model.points() {
            forced_any(alloc, self.model, point, &self.partial)
        } else {
            Ok(None)
        }
    }

    /// The state of a point.
    pub(crate) fn state(&self, alloc: Global, point: usize) -> Result<State, AllocError> {
        if point < self.model.points() {
            state(alloc, self.model, point, &self.partial)
        } else {
            Ok(State::Unknown)
        }
    }
}
