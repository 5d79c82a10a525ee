//! The steps of a filling and those to bounds, by their variables, so that none is looked for among
//! all steps.

use fz_filling::Giver;
use fz_index::{Narrower, Narrowing};
use std::alloc::{AllocError, Global};

/// Steps by their variables. A number of a variable or a step is at its place.
#[derive(Drop)]
pub(crate) struct Past<'r> {
    /// The steps to bounds.
    pub steps: &'r [Narrowing],
    /// Of a variable the point that gave it its value.
    givers: Vec<Option<usize>>,
    /// Of a variable the last step to its bounds.
    last: Vec<Option<usize>>,
    /// Of a step the one before it of the same variable.
    earlier: Vec<Option<usize>>,
}

/// The point that narrowed bounds, where they weren't narrowed by a trial.
pub(crate) fn narrower(step: &Narrowing) -> Option<usize> {
    match step.by {
        Narrower::Point(point) => Some(point),
        Narrower::Trial(_) => None,
    }
}

/// The points that gave so many variables their values.
fn givers_of(
    alloc: Global,
    variables: usize,
    steps: &[Giver],
) -> Result<Vec<Option<usize>>, AllocError> {
    let mut givers = Vec::new(alloc);
    givers.resize(variables, None)?;
    for step in steps {
        if let Some(giver) = givers.get_mut(step.variable)
            && giver.is_none()
        {
            *giver = Some(step.point);
        }
    }
    Ok(givers)
}

impl<'r> Past<'r> {
    /// Of so many variables.
    pub(crate) fn new(
        alloc: Global,
        variables: usize,
        givers: &[Giver],
        steps: &'r [Narrowing],
    ) -> Result<Past<'r>, AllocError> {
        let mut past = Past {
            steps,
            givers: givers_of(alloc, variables, givers)?,
            last: Vec::new(alloc),
            earlier: Vec::new(alloc),
        };
        past.last.resize(variables, None)?;
        for number in 0..steps.len() {
            past.pass(number)?;
        }
        Ok(past)
    }

    /// Takes note of the next step.
    fn pass(&mut self, number: usize) -> Result<(), AllocError> {
        let mut earlier = None;
        if let Some(step) = self.steps.get(number)
            && let Some(last) = self.last.get_mut(step.left.variable)
        {
            earlier = *last;
            *last = Some(number);
        }
        Ok(self.earlier.push(earlier)?)
    }

    /// The point that gave a variable its value, where a step did.
    pub(crate) fn giver(&self, variable: usize) -> Option<usize> {
        *self.givers.get(variable)?
    }

    /// The number of the last step of a variable.
    pub(crate) fn last(&self, variable: usize) -> Option<usize> {
        *self.last.get(variable)?
    }

    /// The last step of a variable.
    pub(crate) fn last_of(&self, variable: usize) -> Option<&Narrowing> {
        self.steps.get(self.last(variable)?)
    }

    /// The number of the last step of a variable before the step with this number that isn't by
    /// this point.
    pub(crate) fn before(&self, variable: usize, end: usize, but: Option<usize>) -> Option<usize> {
        let mut found = self.last(variable);
        for _ in 0..self.steps.len() {
            let number = found?;
            if number < end && !self.is_by(number, but) {
                return found;
            }
            found = *self.earlier.get(number)?;
        }
        None
    }

    /// Whether it is this point that narrowed bounds in the step with this number.
    fn is_by(&self, number: usize, point: Option<usize>) -> bool {
        match (self.steps.get(number), point) {
            (Some(step), Some(_)) => narrower(step) == point,
            _ => false,
        }
    }
}
