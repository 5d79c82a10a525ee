//! The parts of a model. Names are slices of the source.

ghost use Rattle.std.specs.Prelude.{◌≡◌, true};
ghost use Rattle.std.specs.List.{list_all};
ghost use Rattle.fz_store.specs.Slots.{is_scalar};

use crate::store::{Segment, Slot};
use fz_meaning::{Domain, Kind, Known, Term, Value};

/// A scalar variable: its name, its kind, and the values that its declaration admits.
#[derive(Debug, Drop)]
pub struct Variable<'a> {
    pub name: &'a [u8],
    pub kind: Kind,
    pub domain: Domain,
    /// the right side of its definition, where it has one
    pub definition: Option<Term>,
}

/// A declared array, of variables or of parameters, with its elements.
#[derive(Drop)]
pub struct Array<'a> {
    pub name: &'a [u8],
    pub is_variable: bool,
    pub kind: Kind,
    pub domain: Domain,
    pub elements: ScalarList,
}

/// A list of scalars, with the values that don't fit in a slot.
#[derive(Drop)]
pub struct ScalarList {
    pub slots: Vec<Slot>,
    pub constants: Vec<Value>,
    ghost flat: { list_all is_scalar slots.items ≡ true },
}

/// A constraint: the predicate's name, the row of the table that it fits, its segment of the
/// store's arguments, and the number of its defined variable, which the first `defines_var`
/// annotation with a variable names.
#[derive(Clone, Copy, Debug)]
pub struct Posted<'a> {
    pub name: &'a [u8],
    pub known: Option<Known>,
    pub arguments: Segment,
    pub target: Option<usize>,
}

/// What is asked for: any solution, or the least or the greatest value of a scalar.
#[derive(Debug, Drop)]
pub enum Goal {
    Satisfy,
    Minimize(Term),
    Maximize(Term),
}

/// A point of a declaration: the domain of a variable, its definition, or the domain of an array's
/// elements, by the number of the variable or the array.
#[derive(Clone, Copy)]
pub enum DeclaredPoint {
    Domain(usize),
    Definition(usize),
    Elements(usize),
}
