//! The points of a model, as data.

ghost use Rattle.std.specs.Prelude.{◌≡◌};
ghost use Rattle.fz_store.specs.Slots.{segment};

use crate::found::Scalars;
use crate::parts::{Array, Posted, Variable};
use crate::store::{Argument, Store, part};
use fz_meaning::{Domain, Term};

/// How a point is reported: a declared name, or a constraint's number, from 1, and the name of its
/// predicate. Names are slices of the source.
#[derive(Clone, Copy, Debug)]
pub enum Point<'a> {
    Domain(&'a [u8]),
    Definition(&'a [u8]),
    Constraint(usize, &'a [u8]),
}

/// A constraint with its number, from 1, and with the lists that it cites by number: the variables,
/// the arrays and the store of its arguments.
#[derive(Clone, Copy)]
pub struct ConstraintParts<'m, 'a> {
    pub number: usize,
    pub posted: &'m Posted<'a>,
    pub variables: &'m [Variable<'a>],
    pub arrays: &'m [Array<'a>],
    pub store: &'m Store,
}

impl<'m, 'a> ConstraintParts<'m, 'a> {
    /// Its arguments, in their order. It takes no memory.
    #[inline(always)]
    pub fn arguments(&self) -> &'m [Argument]
        ensures all { result.now ≡ segment self.now.store.now.arguments.items
            self.now.posted.now.arguments }
    {
        part(&self.store.arguments, self.posted.arguments)
    }
}

/// A model's constraints, in source order, with the variables and arrays that they cite by number
/// and the store of their arguments.
#[derive(Clone, Copy)]
pub struct Constraints<'m, 'a> {
    pub posted: &'m [Posted<'a>],
    pub variables: &'m [Variable<'a>],
    pub arrays: &'m [Array<'a>],
    pub store: &'m Store,
}

/// A point with its parts: a domain, with its variable and that variable's number; a definition,
/// with these and its right side; the domain of an array's elements, with the array's name; or a
/// constraint.
#[derive(Clone, Copy)]
pub enum PointParts<'m, 'a> {
    Domain(&'m Variable<'a>, usize),
    Definition(&'m Variable<'a>, usize, &'m Term),
    Elements(&'a [u8], &'m Domain, Scalars<'m>),
    Constraint(ConstraintParts<'m, 'a>),
}
