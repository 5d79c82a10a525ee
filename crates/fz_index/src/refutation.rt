//! Why no solution has some values.

use crate::ends::Ends;

/// A variable without a value, and its bounds. Of a Boolean 0 is false and 1 is true.
#[derive(Clone, Copy)]
pub struct Left {
    pub variable: usize,
    pub low: i64,
    pub high: i64,
}

impl Left {
    pub fn of(variable: usize, ends: Ends) -> Left {
        let Ends { low, high } = ends;
        Left {
            variable,
            low,
            high,
        }
    }
}

/// What takes numbers from a variable.
#[derive(Clone, Copy)]
pub enum Narrower {
    /// the point with this number, which can't hold with them
    Point(usize),
    /// these numbers were tried, and come to a contradiction
    Trial(Ends),
}

/// A step in which bounds become narrower: those of a variable behind it, and what takes the other
/// numbers from it.
#[derive(Clone, Copy)]
pub struct Narrowing {
    pub left: Left,
    pub by: Narrower,
}

/// Why no solution has some values: the number of a point that can't hold within the bounds that
/// are left, these bounds, of the first variables in it that have no value, and the steps to them,
/// in their order. Where numbers were tried, these are of the last that were.
#[derive(Drop)]
pub struct Refutation {
    pub point: usize,
    pub left: Vec<Left>,
    pub steps: Vec<Narrowing>,
    /// how many choices of the missing values were tried, of which one stands for all that are
    /// within its bounds
    pub tried: usize,
}
