//! What a search is asked, and what it comes to.

use crate::guide::Edge;
use crate::subsets::OpenSet;
use fz_index::{Refutation, Search};
use fz_store::{Model, Partial};
use std::alloc::Global;

/// What is searched: values for the variables of a model that have none.
#[derive(Clone, Copy)]
pub(crate) struct Task<'m, 'a> {
    pub(crate) alloc: Global,
    pub(crate) known: &'m Search,
    pub(crate) model: &'m Model<'a>,
    pub(crate) filling: &'m Partial,
    /// the set variables among them
    pub(crate) sets: &'m [OpenSet],
    /// whether an integer among them has no bounds
    pub(crate) lacks_bounds: bool,
    /// the objective of the block before, where a better one is looked for first
    pub(crate) before: Option<i64>,
    /// the edges of a solver's search tree
    pub(crate) edges: &'m [Edge<'m>],
    /// the objective that is to be beaten
    pub(crate) last: Option<i64>,
}

/// What a search comes to for values that a block leaves out.
#[derive(Drop)]
pub enum Found {
    /// the values of the block, and some for all variables that have none
    Values(Partial),
    /// that there are no such values
    Refuted(Refutation),
    Nothing,
}
