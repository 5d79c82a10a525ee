//! An order of the points of a model in which each comes behind those that give values to the
//! variables in it.

use crate::arguments::{declared_elements, slots_of};
use fz_store::{ConstraintParts, Model, PointParts, Slot};
use std::alloc::{AllocError, Global};

/// What is next: to list a point, or first what gives a value to a variable.
#[derive(Clone, Copy)]
enum Next {
    Point(usize),
    Variable(usize),
}

/// The points that are listed so far, what is next, the nearest last, and for each variable one
/// more than the number of the point that can give it a value and isn't listed, or 0.
#[derive(Drop)]
struct Walk {
    order: Vec<usize>,
    stack: Vec<Next>,
    givers: Vec<usize>,
}

/// The points that can give a variable a value, each behind those that give values to the variables
/// in it, as far as they don't wait for one another in a circle. `givers` has for each variable one
/// more than the number of the point that can give it a value, and 0 where none can.
pub fn order_of(
    alloc: Global,
    model: &Model<'_>,
    givers: Vec<usize>,
) -> Result<Vec<usize>, AllocError> {
    let count = givers.len();
    let mut walk = Walk {
        order: Vec::new(alloc),
        stack: Vec::new(alloc),
        givers,
    };
    for variable in 0..count {
        walk.push(variable)?;
        // The stack is empty before long: what is behind a variable is put on it once.
        for _ in 0..usize::MAX {
            match walk.stack.pop() {
                Some(Next::Point(point)) => walk.order.push(point)?,
                Some(Next::Variable(variable)) => walk.visit(model, variable)?,
                None => break,
            }
        }
    }
    Ok(walk.order)
}

impl Walk {
    /// Puts a variable on the stack, where its point isn't listed.
    fn push(&mut self, variable: usize) -> Result<(), AllocError> {
        match self.givers.get(variable) {
            Some(0) | None => Ok(()),
            Some(_) => Ok(self.stack.push(Next::Variable(variable))?),
        }
    }

    /// Puts the point of a variable on the stack, and the variables that are in it above.
    fn visit(&mut self, model: &Model<'_>, variable: usize) -> Result<(), AllocError> {
        let Some(giver) = self.givers.get_mut(variable) else {
            return Ok(());
        };
        let Some(point) = giver.checked_sub(1) else {
            return Ok(());
        };
        *giver = 0;
        if point >= model.points() {
            return Ok(());
        }
        self.stack.push(Next::Point(point))?;
        // No other point can give a value to a variable in a declaration that can.
        if let PointParts::Constraint(parts) = model.point_parts(point) {
            self.push_arguments(&parts)?;
        }
        Ok(())
    }

    fn push_arguments(&mut self, parts: &ConstraintParts<'_, '_>) -> Result<(), AllocError> {
        for argument in parts.arguments() {
            let slots = slots_of(parts, argument);
            for slot in slots {
                self.push_all(declared_elements(parts, *slot).slots)?;
            }
            self.push_all(slots)?;
        }
        Ok(())
    }

    fn push_all(&mut self, slots: &[Slot]) -> Result<(), AllocError> {
        for slot in slots {
            if let Slot::Variable(number) = slot {
                self.push(*number as usize)?;
            }
        }
        Ok(())
    }
}
