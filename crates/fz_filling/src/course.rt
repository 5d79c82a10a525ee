//! What is known of the fillings of a model.

ghost use Rattle.std.specs.Prelude.{IfOk};
ghost use Rattle.fz_filling.specs.Courses.{IsCourse};

use crate::lone::lone_order;
use fz_store::Model;
use std::alloc::{AllocError, Global};

/// What is known of the fillings of a model.
#[derive(Drop)]
pub struct Course {
    /// Where no two points can give the same variable a value, so that steps come to the same in
    /// whatever order they are taken: the numbers of the points that can give one, in the order in
    /// which they are tried.
    pub(crate) order: Option<Vec<usize>>,
}

impl Course {
    /// The course of a model, before its first filling. It goes over the points once, and over the
    /// arguments of those that can give values.
    pub(crate) fn new(alloc: Global, model: &Model<'_>) -> Result<Course, AllocError>
        ensures { IfOk result (IsCourse model.now) }
    {
        let order = lone_order(alloc, model)?;
        Ok(Course { order })
    }
}
