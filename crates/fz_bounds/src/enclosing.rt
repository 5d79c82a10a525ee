//! Bounds of an integer variable that has none, where points show some.

ghost use Rattle.std.specs.Prelude.{◌≡◌, ℤ, IfSome, IsTrue, Some, option_map};
ghost use Rattle.fz_model.specs.Meaning.{Assignment, row_of, value_at, whole};
ghost use Rattle.fz_model.specs.Parts.{constraint_view};
ghost use Rattle.fz_model.specs.States.{IsKnownSolution};
ghost use Rattle.fz_model.specs.Steps.{kind_at};
ghost use Rattle.fz_model.specs.declared.Kind.TheVariants.{Int as IntKind};
ghost use Rattle.fz_model.specs.of_base.declared.value.Value.TheVariants.{Int};
ghost use Rattle.fz_model.specs.of_builtins.of_meaning.Known.{known_row};
ghost use Rattle.fz_bounds.specs.Bounds.{IsInside};
ghost use Rattle.fz_bounds.specs.Decided.{LiesIn};
ghost use Rattle.fz_bounds.specs.Opened.{AreMarks, IsInBoth, LeavesAround, LeavesByRow};

use crate::bounded::BoundedConstraint;
use crate::bounds::Bounds;
use crate::opened::OpenConstraint;
use crate::range::Range;
use fz_store::{Builtin, ConstraintParts, Kind, Model, PointParts, same_kind};

/// Both ends of a range, where they are known and have 64 bits.
fn ends_in(range: Range) -> Option<(i64, i64)>
    ensures { IfSome result (λ r. IsInBoth range r.0 r.1) }
{
    let low = i64::try_from(range.low?).ok()?;
    let high = i64::try_from(range.high?).ok()?;
    Some((low, high))
}

/// Whether the variable of a number is an integer.
fn is_integer(model: &Model<'_>, number: usize) -> bool
    ensures { IsTrue result → kind_at model.now number ≡ Some IntKind }
{
    match model.variables().get(number) {
        Some(variable) => same_kind(variable.kind, Kind::Int),
        None => false,
    }
}

impl Bounds {
    /// What a constraint leaves to a variable without bounds, which has 0 as both of them here, and
    /// 0 and 1 among the marks.
    fn left_by_row(&self, parts: &ConstraintParts<'_, '_>, variable: usize, marks: &Bounds) -> Range
        requires known { option_map known_row parts.now.posted.now.known
            ≡ row_of (constraint_view parts.now) }
        requires marked { AreMarks marks.now variable }
        ensures { LeavesByRow self.now variable (constraint_view parts.now) result }
    {
        let Some(known) = parts.posted.known else {
            return Range::unknown();
        };
        if known.builtin == Builtin::IntPow {
            return Range::unknown();
        }
        let at = BoundedConstraint {
            parts: *parts,
            lowest: self.lowest(),
            highest: self.highest(),
        };
        let probe = BoundedConstraint {
            parts: *parts,
            lowest: marks.lowest(),
            highest: marks.highest(),
        };
        if at.are_known(known) {
            OpenConstraint {
                variable,
                at,
                probe,
            }
            .left(known)
        } else {
            Range::unknown()
        }
    }

    /// What the point of a number leaves to it.
    fn left_by(&self, model: &Model<'_>, point: usize, variable: usize, marks: &Bounds) -> Range
        requires marked { AreMarks marks.now variable }
        ensures { LeavesAround model.now self.now variable result }
    {
        if point >= model.points() {
            return Range::unknown();
        }
        match model.point_parts(point) {
            PointParts::Constraint(parts) => self.left_by_row(&parts, variable, marks),
            PointParts::Domain(..) | PointParts::Definition(..) | PointParts::Elements(..) => {
                Range::unknown()
            }
        }
    }

    /// Gives an integer variable without bounds those that the points of these numbers leave to it,
    /// each by itself, of the numbers `within`. It tells whether they do: where an end is open, or
    /// leaves 64 bits, the variable has none. Nothing is known of the marks, before and after it.
    pub fn enclose(
        &mut self,
        model: &Model<'_>,
        variable: usize,
        points: &[usize],
        within: Range,
        marks: &mut Bounds,
    ) -> bool
        requires unmarked { marks.old.lowest ≡ marks.old.highest }
        ensures inside { (A : Assignment) → IsKnownSolution model.now A
            → ((a : ℤ) → value_at (whole A) variable ≡ Some (Int a) → LiesIn within a)
            → IsInside self.old A → IsInside self.new A }
        ensures unmarked { marks.new.lowest ≡ marks.new.highest }
    {
        if !is_integer(model, variable) {
            return false;
        }
        if variable >= marks.lowest().values().len() {
            return false;
        }
        self.narrow(variable, Kind::Int, 0, 0);
        marks.narrow(variable, Kind::Int, 0, 1);
        let mut left = within;
        for point in points {
            left = left.meet(self.left_by(model, *point, variable, marks));
        }
        marks.forget(variable);
        let Some((low, high)) = ends_in(left) else {
            self.forget(variable);
            return false;
        };
        self.narrow(variable, Kind::Int, low, low.max(high));
        true
    }
}
