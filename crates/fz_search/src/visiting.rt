//! Visits of points: what a point may leave to its variables is proposed, as trials.

use crate::work::{Trial, Work};
use fz_index::{End, Ends, Visit};
use fz_store::{IntSet, PointParts, Slot, Value};
use std::alloc::AllocError;

/// More variables than this are many.
const MANY: usize = 100;

/// The number that a value is read as, where it is no set.
fn number_of(value: &Value) -> Option<i64> {
    match value {
        Value::Int(number) => Some(*number),
        Value::Bool(truth) => Some(i64::from(*truth)),
        Value::Set(_) => None,
    }
}

/// What numbers that are taken leave of some bounds, of which so many are looked at.
fn left_by(taken: &IntSet, count: usize, ends: Ends) -> Ends {
    let mut left = ends;
    for _ in 0..count {
        let at_low = taken.contains(left.low);
        if left.low >= left.high || !(at_low || taken.contains(left.high)) {
            break;
        }
        left = left.less(if at_low { End::Low } else { End::High }, 1);
    }
    left
}

impl<'m, 'a> Work<'m, 'a> {
    /// Visits the point.
    pub(crate) fn visit(&mut self) -> Result<(), AllocError> {
        match self.task.known.visit_of(self.point) {
            Visit::Linear(row) => self.visit_row(row),
            Visit::Different => self.visit_different(),
            Visit::Plain => self.visit_plain(),
        }
    }

    /// Visits variables that are all different: none has a number that another one has. Of many
    /// only those that this leaves one number are narrowed: of the first that is open it is noted
    /// with which number it may begin.
    fn visit_different(&mut self) -> Result<(), AllocError> {
        let products = self.task.known.products_of(self.point);
        self.spend(products.len());
        let mut numbers = Vec::new(self.task.alloc);
        for product in products {
            let ends = self.ends_of(product.variable);
            if ends.low == ends.high {
                numbers.push(ends.low)?;
            }
        }
        let taken = IntSet::list(self.task.alloc, &numbers).map_err(|_| AllocError)?;
        let first = self.first_open();
        for product in products {
            let left = left_by(&taken, products.len(), self.ends_of(product.variable));
            if products.len() <= MANY || left.low == left.high {
                self.propose(product.variable, left)?;
            } else if first == Some(product.variable) {
                self.begins = (product.variable, left.low);
            }
        }
        self.try_to(Trial::Fails)
    }

    /// Visits a point of another kind, variable by variable.
    fn visit_plain(&mut self) -> Result<(), AllocError> {
        let products = self.task.known.products_of(self.point);
        if products.is_empty() {
            return self.visit_declared();
        }
        for product in products {
            self.shave_both(product.variable)?;
        }
        match self.standing(self.point).open {
            0 => self.try_to(Trial::Fails),
            1 => {
                let forced = self.proposal.forced(self.task.alloc, self.point)?;
                if let Some((variable, value)) = forced
                    && let Some(number) = number_of(&value)
                {
                    self.propose(variable, Ends::at(number))?;
                }
                Ok(())
            }
            _ => Ok(()),
        }
    }

    /// Visits the domain of a variable or of an array.
    fn visit_declared(&mut self) -> Result<(), AllocError> {
        if self.point >= self.task.model.points() {
            return Ok(());
        }
        match self.task.model.point_parts(self.point) {
            PointParts::Domain(_, variable) => self.shave_both(variable),
            PointParts::Elements(_, _, elements) => {
                for slot in elements.slots {
                    if let Slot::Variable(number) = slot {
                        self.shave_both(*number as usize)?;
                    }
                }
                Ok(())
            }
            PointParts::Definition(..) | PointParts::Constraint(_) => Ok(()),
        }
    }

    /// Proposes to take numbers from both ends of a variable's bounds.
    fn shave_both(&mut self, variable: usize) -> Result<(), AllocError> {
        self.shave(variable, End::High, 1, true)?;
        self.shave(variable, End::Low, 1, true)
    }
}
