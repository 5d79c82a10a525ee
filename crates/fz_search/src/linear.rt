//! What linear rows leave to variables: bounds, and values of Booleans.

use crate::work::{Trial, Work};
use fz_bounds::{Outlook, Range};
use fz_index::{Ends, Product, Relation, Row, Sums};
use std::alloc::AllocError;

/// The number in 64 bits, or the nearest.
fn nearest(number: i128) -> i64 {
    i64::try_from(number).unwrap_or(if number < 0 { i64::MIN } else { i64::MAX })
}

/// What the bounds of a sum say of a relation.
fn outlook_of(relation: Relation, sums: Sums) -> Outlook {
    let sum = Range {
        low: Some(sums.least),
        high: Some(sums.most),
    };
    match relation {
        Relation::AtMost(number) => sum.at_most(Range::of(number)),
        Relation::AtLeast(number) => Range::of(number).at_most(sum),
        Relation::Equal(number) => sum.equal(Range::of(number)),
        Relation::Unequal(number) => sum.equal(Range::of(number)).negated(),
    }
}

/// How far a variable may move, so that its product moves by at most the slack.
fn steps_in(slack: i128, coefficient: i64) -> i128 {
    let size = i128::from(coefficient.unsigned_abs());
    slack.checked_div(size).unwrap_or(0)
}

/// The bounds that remain to a variable that may move at most so far from its low end, or from its
/// high one.
fn left_of(ends: Ends, steps: i128, from_low: bool) -> Ends {
    let mut left = ends;
    if from_low {
        left.high = nearest(i128::from(ends.low).saturating_add(steps));
    } else {
        left.low = nearest(i128::from(ends.high).saturating_sub(steps));
    }
    left
}

/// The number whose product is the rest, where there is one.
fn exact(rest: i128, coefficient: i64) -> Option<i64> {
    let size = i128::from(coefficient);
    let number = i64::try_from(rest.checked_div(size)?).ok()?;
    (i128::from(number).saturating_mul(size) == rest).then_some(number)
}

impl<'m, 'a> Work<'m, 'a> {
    /// Visits a linear row.
    pub(crate) fn visit_row(&mut self, row: Row) -> Result<(), AllocError> {
        let Some(truth) = row.truth else {
            return self.impose(row.relation);
        };
        match self.truth(truth) {
            Some(true) => self.impose(row.relation),
            Some(false) if row.is_half => Ok(()),
            Some(false) => self.impose(row.relation.negated()),
            None => match outlook_of(row.relation, self.standing(self.point).sums) {
                Outlook::Always if !row.is_half => self.propose(truth, Ends::at(1)),
                Outlook::Never => self.propose(truth, Ends::at(0)),
                Outlook::Always | Outlook::Open => Ok(()),
            },
        }
    }

    /// The Boolean of a variable, where it has one.
    fn truth(&self, variable: usize) -> Option<bool> {
        let values = self.proposal.values();
        values.has(variable).then_some(values.truth(variable))
    }

    /// Proposes to take from the variables of the point the numbers with which a relation can't
    /// hold.
    fn impose(&mut self, relation: Relation) -> Result<(), AllocError> {
        match relation {
            Relation::AtMost(number) => self.hold_all(number, true),
            Relation::AtLeast(number) => self.hold_all(number, false),
            Relation::Equal(number) => {
                self.hold_all(number, true)?;
                self.hold_all(number, false)
            }
            Relation::Unequal(number) => self.part(number),
        }
    }

    /// Keeps each product of the point so near its least value that the sum can be at most this
    /// number, or so near its greatest that it can be at least that. Where all but one are known
    /// to move no further, only that one is looked at.
    fn hold_all(&mut self, number: i128, to_least: bool) -> Result<(), AllocError> {
        let standing = self.standing(self.point);
        let slack = if to_least {
            number.saturating_sub(standing.sums.least)
        } else {
            standing.sums.most.saturating_sub(number)
        };
        if slack < 0 {
            return self.try_to(Trial::Fails);
        }
        let products = self.task.known.products_of(self.point);
        if standing.others <= slack {
            return match products.get(standing.top) {
                Some(product) => self.hold(product, slack, to_least),
                None => Ok(()),
            };
        }
        self.spend(products.len());
        for product in products {
            self.hold(product, slack, to_least)?;
        }
        self.measure();
        Ok(())
    }

    /// Measures how far the products of the point can move.
    fn measure(&mut self) {
        let (mut top, mut furthest, mut others) = (0usize, 0i128, 0i128);
        let products = self.task.known.products_of(self.point);
        for (place, product) in products.iter().enumerate() {
            let here = self.ends_of(product.variable).reach(product.coefficient);
            if here > furthest {
                top = place;
                others = furthest;
                furthest = here;
            } else {
                others = others.max(here);
            }
        }
        if let Some(standing) = self.standings.get_mut(self.point) {
            standing.top = top;
            standing.others = others;
        }
    }

    fn hold(&mut self, product: &Product, slack: i128, to_least: bool) -> Result<(), AllocError> {
        if product.coefficient == 0 {
            return Ok(());
        }
        let ends = self.ends_of(product.variable);
        let steps = steps_in(slack, product.coefficient);
        if ends.width() <= steps {
            return Ok(());
        }
        let left = left_of(ends, steps, (product.coefficient > 0) == to_least);
        self.propose(product.variable, left)
    }

    /// The sum must not be this number: proposes to take from the only variable without a value the
    /// number that would make it so.
    fn part(&mut self, number: i128) -> Result<(), AllocError> {
        if self.standing(self.point).open > 1 {
            return Ok(());
        }
        let products = self.task.known.products_of(self.point);
        self.spend(products.len());
        let mut rest = number;
        let mut free = None;
        for product in products {
            let ends = self.ends_of(product.variable);
            if product.coefficient == 0 || ends.low == ends.high {
                rest = rest.saturating_sub(ends.times(product.coefficient).0);
            } else if free.is_some() {
                return Ok(());
            } else {
                free = Some((*product, ends));
            }
        }
        let Some((product, ends)) = free else {
            return if rest == 0 {
                self.try_to(Trial::Fails)
            } else {
                Ok(())
            };
        };
        match exact(rest, product.coefficient) {
            Some(number) => self.propose(product.variable, ends.without(number)),
            None => Ok(()),
        }
    }
}
