//! The points of a model's declarations that are to be looked at where each variable's value is
//! known to lie in its domain. They are listed once for a model, and used with each assignment.

ghost use Rattle.std.specs.Prelude.{◌≡◌, ◌≤◌, IfOk, length, take};
ghost use Rattle.fz_builtins.specs.of_meaning.Meaning.{points};
ghost use Rattle.fz_builtins.specs.of_store.Shown.{point_view};
ghost use Rattle.fz_model.specs.Overviews.{IsOverview, others_from};
ghost use Rattle.fz_model.specs.Whole.{is_domain};

use fz_store::{Model, PointParts};
use std::alloc::{AllocError, Global};

/// A model's declarations, prepared for `all_hold`.
#[derive(Drop)]
pub struct Overview {
    /// the numbers, from 0, of the declarations' points other than the domains of variables
    pub(crate) others: Vec<usize>,
}

/// Whether the point is that of a variable's domain. It doesn't read the variable.
fn is_domain(parts: &PointParts<'_, '_>) -> bool
    ensures { result ≡ is_domain (point_view parts.now) }
{
    matches!(parts, PointParts::Domain(_, _))
}

/// The numbers of those of the first `count` points that are not the domain of a variable.
fn others(alloc: Global, model: &Model<'_>, count: usize) -> Result<Vec<usize>, AllocError>
    requires in_range { count ≤ length (points model.now) }
    ensures { IfOk result (λ v. v.items ≡ others_from 0 (take count (points model.now))) }
{
    let mut others = Vec::new(alloc);
    for number in 0..count {
        if is_domain(&model.point_parts(number)) {
            continue;
        }
        others.push(number)?;
    }
    Ok(others)
}

impl Overview {
    /// The overview of a model. It goes over the declarations once, and refuses only where memory
    /// runs out.
    pub fn new(alloc: Global, model: &Model<'_>) -> Result<Overview, AllocError>
        ensures made { IfOk result (IsOverview model.now) }
    {
        let declared = model.points() - model.constraints().posted.len();
        let others = others(alloc, model, declared)?;
        Ok(Overview { others })
    }
}
