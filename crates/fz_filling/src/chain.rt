//! The chain of a filling: forced steps until no point gives one.

ghost use Rattle.std.specs.Prelude.{OnOk};
ghost use Rattle.fz_index.specs.of_model.Meaning.{IsPartial};
ghost use Rattle.fz_filling.specs.Courses.{AreLone, IsCourse};
ghost use Rattle.fz_filling.specs.Filling.{Chain};
ghost use Rattle.fz_filling.specs.Givers.{AddsSteps};
ghost use Rattle.fz_filling.specs.declared.completion.Completion.TheVariants.{Off};

use crate::course::Course;
use crate::steps::{Steps, fill_along, fill_on};
use fz_store::{Model, Partial};
use std::alloc::{AllocError, Global};

/// Takes the steps of points in this order first, and then those that are left. It comes to the
/// same, where no two points can give the same variable a value.
fn fill_lone(
    alloc: Global,
    model: &Model<'_>,
    partial: &mut Partial,
    steps: &mut Steps,
    order: &[usize],
) -> Result<(), AllocError>
    requires fits { IsPartial model.now partial.old }
    requires lone { AreLone model.now }
    ensures filled { OnOk result (Chain model.now partial.old 0 partial.new) }
    ensures steps { OnOk result
        (AddsSteps Off model.now partial.old partial.new steps.old steps.new) }
    ensures kinds { OnOk result (IsPartial model.now partial.new) }
{
    fill_along(alloc, model, partial, steps, order)?;
    fill_on(alloc, model, partial, steps)
}

/// Fills in what follows, one forced step after another. Once each variable has a value there is
/// nothing left to give. It refuses only where memory runs out.
pub(crate) fn fill_in(
    alloc: Global,
    model: &Model<'_>,
    partial: &mut Partial,
    steps: &mut Steps,
    course: &Course,
) -> Result<(), AllocError>
    requires fits { IsPartial model.now partial.old }
    requires course { IsCourse model.now course.now }
    ensures filled { OnOk result (Chain model.now partial.old 0 partial.new) }
    ensures steps { OnOk result
        (AddsSteps Off model.now partial.old partial.new steps.old steps.new) }
    ensures kinds { OnOk result (IsPartial model.now partial.new) }
{
    match &course.order {
        Some(order) => fill_lone(alloc, model, partial, steps, order),
        None => fill_on(alloc, model, partial, steps),
    }
}
