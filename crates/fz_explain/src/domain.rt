//! The declared domain that a point is about.

ghost use Rattle.std.specs.Prelude.{◌≡◌, ◌<◌, Some, length, option_map, slice_get};
ghost use Rattle.fz_filling.specs.of_model.Meaning.{Point, points};
ghost use Rattle.fz_explain.specs.Domains.{domain_of};

use fz_store::{Domain, Model, PointParts};

/// The declared domain, where the point with this number, from 0, is about one; none where it is a
/// definition or a constraint.
pub fn declared_domain<'m>(model: &'m Model<'_>, point: usize) -> Option<&'m Domain>
    requires in_range { point < length (points model.now) }
    ensures { (p : Point) → slice_get (points model.now) point ≡ Some p
        → option_map (λ d. d.now) result ≡ domain_of p }
{
    match model.point_parts(point) {
        PointParts::Domain(variable, _) => Some(&variable.domain),
        PointParts::Elements(_, domain, _) => Some(domain),
        PointParts::Definition(_, _, _) | PointParts::Constraint(_) => None,
    }
}
