//! Quotients and remainders within bounds.

ghost use Rattle.std.specs.Prelude.{◌≡◌, ◌&&◌, ℤ, IsTrue, false, int_div, int_rem, not, pos};
ghost use Rattle.fz_model.specs.Meaning.{Partial as Values};
ghost use Rattle.fz_model.specs.Relations.{◌=ℤ◌};
ghost use Rattle.fz_model.specs.of_builtins.of_kernel.Given.{int_at};
ghost use Rattle.fz_bounds.specs.Decided.{Decides, LiesIn};
ghost use Rattle.fz_bounds.specs.Within.{NumberLies, given};

use crate::bounded::BoundedConstraint;
use crate::outlook::Outlook;
use crate::range::Range;

impl Range {
    /// Of the remainders by numbers that aren't 0. A remainder has the sign of what is divided, and
    /// is no farther from 0 than that; it is nearer to 0 than the divisor.
    fn remainder(self, divisor: Range) -> Range
        ensures { (a b : ℤ) → LiesIn self a → LiesIn divisor b → (b =ℤ pos 0) ≡ false
            → LiesIn result (int_rem a b) }
    {
        let most = divisor.abs().minus(Range::of(1));
        let near = most.hull(most.negated());
        near.max(self.min(Range::of(0))).min(self.max(Range::of(0)))
    }
}

impl<'s, 'a> BoundedConstraint<'s, 'a> {
    /// Whether the second argument isn't 0, and the third is the quotient of the first by it. That
    /// is so where the product of the second and the third leaves the remainder of the first.
    pub(crate) fn is_quotient(&self) -> Outlook
        ensures { (K : Values) → NumberLies self.now 0 K → NumberLies self.now 1 K
            → NumberLies self.now 2 K → Decides result (not (int_at K (given self.now) 1 =ℤ pos 0)
            && (int_at K (given self.now) 2
            =ℤ int_div (int_at K (given self.now) 0) (int_at K (given self.now) 1))) }
    {
        let rest = self.number(0).minus(self.product(1, 2));
        if self.cannot_leave(rest) {
            Outlook::Never
        } else {
            Outlook::Open
        }
    }

    /// Whether the second argument isn't 0, and the third is the remainder of the first by it.
    pub(crate) fn is_remainder(&self) -> Outlook
        ensures { (K : Values) → NumberLies self.now 0 K → NumberLies self.now 1 K
            → NumberLies self.now 2 K → Decides result (not (int_at K (given self.now) 1 =ℤ pos 0)
            && (int_at K (given self.now) 2
            =ℤ int_rem (int_at K (given self.now) 0) (int_at K (given self.now) 1))) }
    {
        if self.cannot_leave(self.number(2)) {
            Outlook::Never
        } else {
            Outlook::Open
        }
    }

    /// Whether the second argument can only be 0, or the remainder of the first by it can be no
    /// number of a range.
    fn cannot_leave(&self, rest: Range) -> bool
        ensures { IsTrue result → (K : Values) → NumberLies self.now 0 K → NumberLies self.now 1 K
            → (r : ℤ) → LiesIn rest r → (not (int_at K (given self.now) 1 =ℤ pos 0)
            && (r =ℤ int_rem (int_at K (given self.now) 0) (int_at K (given self.now) 1)))
            ≡ false }
    {
        let by_zero = self.number(1).equal(Range::of(0));
        let same = rest.equal(self.number(0).remainder(self.number(1)));
        if by_zero.is_always() {
            return true;
        }
        same.is_never()
    }
}
