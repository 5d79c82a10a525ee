//! Constraints as linear rows. A Boolean is 0 or 1 there.

use crate::row::Relation;
use fz_store::{Builtin, Form, Known};

/// The sum of its arguments that a linear row compares.
#[derive(Clone, Copy)]
pub(crate) enum Terms {
    /// the products of the first two arrays, less the third argument
    Weighted,
    /// the first arguments, each times its coefficient
    Scalars(&'static [i64]),
    /// the elements of the first array, each subtracted from 1
    Complements,
    /// the elements of the first array, and those of the second, where the second argument is one,
    /// each of these subtracted from 1
    Clause,
}

const DIFFERENCE: Terms = Terms::Scalars(&[1, -1]);

const PAIR: Terms = Terms::Scalars(&[1, 1]);

/// A linear row of a builtin: its sum, what this is compared with, and the index of the Boolean
/// that says whether the comparison holds.
#[derive(Clone, Copy)]
pub(crate) struct Shape {
    pub(crate) terms: Terms,
    pub(crate) relation: Relation,
    pub(crate) truth: Option<usize>,
}

/// The linear row of a builtin, where it has one.
fn base_shape(builtin: Builtin) -> Option<Shape> {
    let (terms, relation, truth) = match builtin {
        Builtin::IntLinEq | Builtin::BoolLinEq => (Terms::Weighted, Relation::Equal(0), None),
        Builtin::IntLinNe => (Terms::Weighted, Relation::Unequal(0), None),
        Builtin::IntLinLe | Builtin::BoolLinLe => (Terms::Weighted, Relation::AtMost(0), None),
        Builtin::IntEq | Builtin::BoolEq => (DIFFERENCE, Relation::Equal(0), None),
        Builtin::Bool2Int => (DIFFERENCE, Relation::Equal(0), None),
        Builtin::IntNe => (DIFFERENCE, Relation::Unequal(0), None),
        Builtin::IntLe | Builtin::BoolLe => (DIFFERENCE, Relation::AtMost(0), None),
        Builtin::IntLt | Builtin::BoolLt => (DIFFERENCE, Relation::AtMost(-1), None),
        Builtin::IntPlus => (Terms::Scalars(&[1, 1, -1]), Relation::Equal(0), None),
        Builtin::BoolNot => (PAIR, Relation::Equal(1), None),
        Builtin::BoolXor => (DIFFERENCE, Relation::Unequal(0), Some(2)),
        Builtin::BoolAnd => (PAIR, Relation::AtLeast(2), Some(2)),
        Builtin::BoolOr => (PAIR, Relation::AtLeast(1), Some(2)),
        Builtin::ArrayBoolAnd => (Terms::Complements, Relation::AtMost(0), Some(1)),
        Builtin::ArrayBoolOr => (Terms::Clause, Relation::AtLeast(1), Some(1)),
        Builtin::BoolClause => (Terms::Clause, Relation::AtLeast(1), None),
        _ => return None,
    };
    Some(Shape {
        terms,
        relation,
        truth,
    })
}

/// The linear row of a constraint, where it has one. The control variable of a reified form is the
/// last argument.
pub(crate) fn shape_of(known: Known) -> Option<Shape> {
    let mut shape = base_shape(known.builtin)?;
    if !matches!(known.form, Form::Base) {
        shape.truth = Some(known.shapes().len().checked_sub(1)?);
    }
    Some(shape)
}
