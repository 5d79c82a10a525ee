//! Lexicographic order within bounds, of arrays of numbers or of Booleans.

ghost use Rattle.std.specs.Prelude.{◌≡◌, IsTrue, false, int_lt, true};
ghost use Rattle.fz_model.specs.Meaning.{Partial as Values};
ghost use Rattle.fz_model.specs.Relations.{◌=ℤ◌, is_before};
ghost use Rattle.fz_bounds.specs.Decided.{Decides};
ghost use Rattle.fz_bounds.specs.Within.{ElementsLie, given, numbers_at};

use crate::bounded::BoundedConstraint;
use crate::outlook::Outlook;

impl<'s, 'a> BoundedConstraint<'s, 'a> {
    /// Whether one array cannot come before another: up to where it is greater for certain, it is
    /// nowhere less.
    fn never_before(&self, truths: bool, one: usize, other: usize) -> bool
        ensures { IsTrue result → (K : Values) → ElementsLie truths self.now one K
            → ElementsLie truths self.now other K → is_before int_lt ◌=ℤ◌
            (numbers_at truths K (given self.now) one)
            (numbers_at truths K (given self.now) other) ≡ false }
    {
        let size = self.count(one);
        let other_size = self.count(other);
        for place in 0..size.min(other_size) {
            let first = self.element(truths, one, place);
            let second = self.element(truths, other, place);
            if !first.below(second).is_never() {
                return false;
            }
            if first.equal(second).is_never() {
                return true;
            }
        }
        if other_size <= size {
            return true;
        }
        false
    }

    /// Whether it has to come before: up to where it is less for certain, it is nowhere greater.
    fn surely_before(&self, truths: bool, one: usize, other: usize) -> bool
        ensures { IsTrue result → (K : Values) → ElementsLie truths self.now one K
            → ElementsLie truths self.now other K → is_before int_lt ◌=ℤ◌
            (numbers_at truths K (given self.now) one)
            (numbers_at truths K (given self.now) other) ≡ true }
    {
        let size = self.count(one);
        let other_size = self.count(other);
        for place in 0..size.min(other_size) {
            let first = self.element(truths, one, place);
            let second = self.element(truths, other, place);
            if !first.at_most(second).is_always() {
                return false;
            }
            if first.below(second).is_always() {
                return true;
            }
        }
        if size < other_size {
            return true;
        }
        false
    }

    /// Whether one array comes before another.
    pub(crate) fn comes_before(&self, truths: bool, one: usize, other: usize) -> Outlook
        ensures { (K : Values) → ElementsLie truths self.now one K
            → ElementsLie truths self.now other K → Decides result (is_before int_lt ◌=ℤ◌
            (numbers_at truths K (given self.now) one)
            (numbers_at truths K (given self.now) other)) }
    {
        if self.never_before(truths, one, other) {
            return Outlook::Never;
        }
        if self.surely_before(truths, one, other) {
            return Outlook::Always;
        }
        Outlook::Open
    }
}
