//! Linear rows: what a constraint says of a sum of products.

use crate::ends::Ends;

/// A variable of a point with its coefficient, which is 0 where it is in no sum.
#[derive(Clone, Copy)]
pub struct Product {
    pub variable: usize,
    pub coefficient: i64,
}

/// A point of a variable, and the coefficient that the variable has there.
#[derive(Clone, Copy)]
pub struct Place {
    pub point: usize,
    pub coefficient: i64,
}

/// How a sum compares with a number.
#[derive(Clone, Copy)]
pub enum Relation {
    AtMost(i128),
    AtLeast(i128),
    Equal(i128),
    Unequal(i128),
}

/// What a constraint says of the sum of its products: that it compares so. Where there is a
/// Boolean it says that where this is true, and else the opposite, or nothing if it is
/// half-reified.
#[derive(Clone, Copy)]
pub struct Row {
    pub relation: Relation,
    /// the variable that is the Boolean
    pub truth: Option<usize>,
    pub is_half: bool,
}

/// The least and the greatest that a sum can be.
#[derive(Clone, Copy)]
pub struct Sums {
    pub least: i128,
    pub most: i128,
}

impl Sums {
    /// What becomes of these bounds, where those of a variable with a coefficient change.
    pub fn moved(self, coefficient: i64, before: Ends, now: Ends) -> Sums {
        let (low, high) = before.times(coefficient);
        let (least, most) = now.times(coefficient);
        Sums {
            least: self.least.saturating_sub(low).saturating_add(least),
            most: self.most.saturating_sub(high).saturating_add(most),
        }
    }
}

impl Relation {
    /// The relation that holds where this one doesn't.
    pub fn negated(self) -> Relation {
        match self {
            Relation::AtMost(number) => Relation::AtLeast(number.saturating_add(1)),
            Relation::AtLeast(number) => Relation::AtMost(number.saturating_sub(1)),
            Relation::Equal(number) => Relation::Unequal(number),
            Relation::Unequal(number) => Relation::Equal(number),
        }
    }

    /// The same relation, of the sum without a constant that was in it.
    pub fn without(self, constant: i128) -> Relation {
        match self {
            Relation::AtMost(number) => Relation::AtMost(number.saturating_sub(constant)),
            Relation::AtLeast(number) => Relation::AtLeast(number.saturating_sub(constant)),
            Relation::Equal(number) => Relation::Equal(number.saturating_sub(constant)),
            Relation::Unequal(number) => Relation::Unequal(number.saturating_sub(constant)),
        }
    }
}

/// How a point is visited.
#[derive(Clone, Copy)]
pub enum Visit {
    /// as a linear row
    Linear(Row),
    /// as variables that are all different
    Different,
    /// variable by variable, from both ends of its bounds
    Plain,
}
