//! What a constraint leaves to an integer variable that has no bounds.

ghost use Rattle.std.specs.Prelude.{◌≡◌, ◌<◌, ◌+ℤ◌, ◌*ℤ◌, ℤ, true, false, length, Option, IfSome, IsTrue, Some, slice_get};
ghost use Rattle.fz_model.specs.Meaning.{Partial as Values, value_at};
ghost use Rattle.fz_model.specs.Builtins.{row_at};
ghost use Rattle.fz_model.specs.Relations.{products, total};
ghost use Rattle.fz_model.specs.declared.Term.{Term};
ghost use Rattle.fz_model.specs.declared.Term.TheVariants.{Var};
ghost use Rattle.fz_model.specs.of_base.declared.value.Value.TheVariants.{Int};
ghost use Rattle.fz_model.specs.of_builtins.of_kernel.Given.{ints_at, slot_at, slots_at};
ghost use Rattle.fz_model.specs.of_builtins.of_meaning.Known.{known_row};
ghost use Rattle.fz_store.specs.declared.Builtin.TheVariants.{IntLe, IntLinEq, IntLinLe, IntTimes};
ghost use Rattle.fz_bounds.specs.Opened.{AreFactors, IsFactor, IsOther, IsProbed, Leaves, probed, zeroed};
ghost use Rattle.fz_bounds.specs.Within.{NumbersLie, given};

use crate::bounded::BoundedConstraint;
use crate::range::Range;
use fz_kernel::arrays::sum_of_products;
use fz_store::{Builtin, Form, Known};

/// A constraint with a variable in it that has no bounds.
#[derive(Clone, Copy)]
pub(crate) struct OpenConstraint<'s, 'a> {
    pub(crate) variable: usize,
    /// the constraint where 0 is the variable's only value
    pub(crate) at: BoundedConstraint<'s, 'a>,
    /// the constraint where the variable's bounds are 0 and 1, and all else has one value or none
    pub(crate) probe: BoundedConstraint<'s, 'a>,
}

impl<'s, 'a> OpenConstraint<'s, 'a> {
    /// Whether the argument at an index is the variable.
    fn is_at(&self, index: usize) -> bool
        requires probed { IsProbed self.now }
        ensures same { result ≡ true
            → slot_at (given self.now.at) index ≡ Some (Var self.now.variable) }
        ensures other { result ≡ false
            → IsOther self.now.variable (slot_at (given self.now.at) index) }
    {
        if self.probe.low().int(index) == self.probe.high().int(index) {
            return false;
        }
        true
    }

    /// Whether each factor of a sum, an element of the first argument, is one number.
    fn has_factors(&self) -> bool
        requires probed { IsProbed self.now }
        ensures { IsTrue result → AreFactors self.now }
    {
        for place in 0..self.at.count(0).min(self.probe.count(0)) {
            if !self.is_factor(place) {
                return false;
            }
        }
        true
    }

    /// Whether the element at a place is one.
    fn is_factor(&self, place: usize) -> bool
        requires probed { IsProbed self.now }
        requires in_range { place < length (slots_at (given self.now.at) 0) }
        requires in_probe { place < length (slots_at (given self.now.probe) 0) }
        ensures { IsTrue result → (s : Option Term)
            → slice_get (slots_at (given self.now.at) 0) place ≡ Some s
            → IsFactor self.now.variable (probed self.now) self.now.at.lowest.now
            self.now.at.highest.now s }
    {
        let factor = self.probe.least(0, place);
        if self.probe.greatest(0, place) != factor {
            return false;
        }
        if self.at.least(0, place) != factor {
            return false;
        }
        if self.at.greatest(0, place) != factor {
            return false;
        }
        true
    }

    /// What the variable adds to a sum where it is 1.
    fn share(&self) -> Option<i128>
        requires probed { IsProbed self.now }
        requires factors { AreFactors self.now }
        ensures { IfSome result (λ q. (K : Values) (a : ℤ)
            → value_at K self.now.variable ≡ Some (Int a)
            → NumbersLie self.now.at 0 (zeroed self.now K)
            → total (products (ints_at K (given self.now.at) 0) (ints_at K (given self.now.at) 1))
            ≡ total (products (ints_at (zeroed self.now K) (given self.now.at) 0)
            (ints_at (zeroed self.now K) (given self.now.at) 1)) +ℤ (q *ℤ a)) }
    {
        let (zero, one) = (self.probe.low(), self.probe.high());
        let without = sum_of_products(&zero.elements(0), &zero.elements(1))?;
        let with = sum_of_products(&one.elements(0), &one.elements(1))?;
        let share = with.checked_sub(without)?;
        Some(share)
    }

    /// What a number that is at most another one leaves.
    fn left_by_order(&self) -> Range
        requires probed { IsProbed self.now }
        ensures { Leaves self.now (row_at IntLe) result }
    {
        if self.is_at(0) {
            if self.is_at(1) {
                return Range::unknown();
            }
            return self.at.number(1).and_below();
        }
        if self.is_at(1) {
            return self.at.number(0).and_above();
        }
        Range::unknown()
    }

    /// What a sum leaves that is at most a number, where the variable's factor is 1 or -1.
    fn left_by_sum(&self) -> Range
        requires probed { IsProbed self.now }
        ensures { Leaves self.now (row_at IntLinLe) result }
    {
        if self.is_at(2) {
            return Range::unknown();
        }
        if !self.has_factors() {
            return Range::unknown();
        }
        let (rest, sum) = (self.at.sum_of_products(0, 1), self.at.number(2));
        let Some(share) = self.share() else {
            return Range::unknown();
        };
        if share == 1 {
            sum.minus(rest).and_below()
        } else if share == -1 {
            rest.minus(sum).and_above()
        } else {
            Range::unknown()
        }
    }

    /// The same of a sum that is a number.
    fn left_by_equation(&self) -> Range
        requires probed { IsProbed self.now }
        ensures { Leaves self.now (row_at IntLinEq) result }
    {
        if self.is_at(2) {
            return Range::unknown();
        }
        if !self.has_factors() {
            return Range::unknown();
        }
        let (rest, sum) = (self.at.sum_of_products(0, 1), self.at.number(2));
        let Some(share) = self.share() else {
            return Range::unknown();
        };
        if share == 1 {
            sum.minus(rest)
        } else if share == -1 {
            rest.minus(sum)
        } else {
            Range::unknown()
        }
    }

    /// What a product leaves that the variable is.
    fn left_by_product(&self) -> Range
        requires probed { IsProbed self.now }
        ensures { Leaves self.now (row_at IntTimes) result }
    {
        if self.is_at(0) {
            return Range::unknown();
        }
        if self.is_at(1) {
            return Range::unknown();
        }
        if self.is_at(2) {
            self.at.product(0, 1)
        } else {
            Range::unknown()
        }
    }

    /// What a row leaves to the variable. Of reified forms that is anything.
    pub(crate) fn left(&self, known: Known) -> Range
        requires probed { IsProbed self.now }
        ensures { Leaves self.now (known_row known) result }
    {
        let Form::Base = known.form else {
            return Range::unknown();
        };
        match known.builtin {
            Builtin::IntLe => self.left_by_order(),
            Builtin::IntLinEq => self.left_by_equation(),
            Builtin::IntLinLe => self.left_by_sum(),
            Builtin::IntTimes => self.left_by_product(),
            _ => Range::unknown(),
        }
    }
}
