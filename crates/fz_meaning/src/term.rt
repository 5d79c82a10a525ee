//! Scalars and domains of a model with its names looked up.

use fz_base::{IntSet, Value};

/// A scalar: the variable of a number, or a fixed value. Scalar variables are numbered from 0 in
/// source order.
#[derive(Debug, Drop)]
pub enum Term {
    Var(usize),
    Fixed(Value),
}

/// The integers that a declaration admits: all, those from one bound to the other, or those of a
/// set. A set value has to be a subset of them.
#[derive(Debug, Drop)]
pub enum Domain {
    All,
    Within(i64, i64),
    Among(IntSet),
}
