//! What was declared so far.

use crate::names::Names;
use crate::parts::{Array, DeclaredPoint, Variable};
use fz_meaning::Kind;

/// What was declared so far: the names in source order, the variables and arrays by their numbers,
/// and the points. The kinds of the variables also have a list of their own, a byte each, so that
/// they stay in a near cache.
#[derive(Drop)]
pub struct Scope<'a> {
    pub names: Names<'a>,
    pub variables: Vec<Variable<'a>>,
    pub kinds: Vec<Kind>,
    pub arrays: Vec<Array<'a>>,
    pub points: Vec<DeclaredPoint>,
}
