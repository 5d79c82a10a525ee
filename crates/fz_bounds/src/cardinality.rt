//! Counts of several values within bounds.

ghost use Rattle.std.specs.Prelude.{ℤ, IfOk, length, pos};
ghost use Rattle.fz_model.specs.Meaning.{Partial as Values};
ghost use Rattle.fz_model.specs.Relations.{◌=ℤ◌, counts_are, counts_lie, is_closed, values_of};
ghost use Rattle.fz_model.specs.of_builtins.of_kernel.Given.{int_at, ints_at};
ghost use Rattle.fz_bounds.specs.Decided.{Decides, LiesIn};
ghost use Rattle.fz_bounds.specs.Within.{NumberLies, NumbersLie, given};

use crate::bounded::BoundedConstraint;
use crate::outlook::Outlook;
use crate::range::Range;
use fz_store::IntSet;
use std::alloc::{AllocError, Global};

impl<'s, 'a> BoundedConstraint<'s, 'a> {
    /// Whether each value of a cover comes as often in an array as the number beside it says.
    pub(crate) fn counts_are(&self, array: usize, cover: usize, numbers: usize) -> Outlook
        ensures { (K : Values) → NumbersLie self.now array K → NumbersLie self.now cover K
            → NumbersLie self.now numbers K → Decides result
            (counts_are (ints_at K (given self.now) array) (ints_at K (given self.now) cover)
            (ints_at K (given self.now) numbers)) }
    {
        for place in 0..self.count(cover).min(self.count(numbers)) {
            let count = self.count_of(array, self.number_at(cover, place));
            if count.equal(self.number_at(numbers, place)).is_never() {
                return Outlook::Never;
            }
        }
        Outlook::Open
    }

    /// Whether each value of the second argument comes in the first at least as often as the third
    /// says, and at most as often as the fourth says.
    pub(crate) fn counts_lie(&self) -> Outlook
        ensures { (K : Values) → NumbersLie self.now 0 K → NumbersLie self.now 1 K
            → NumbersLie self.now 2 K → NumbersLie self.now 3 K → Decides result
            (counts_lie (ints_at K (given self.now) 0) (ints_at K (given self.now) 1)
            (ints_at K (given self.now) 2) (ints_at K (given self.now) 3)) }
    {
        let limits = self.count(2).min(self.count(3));
        for place in 0..self.count(1).min(limits) {
            let count = self.count_of(0, self.number_at(1, place));
            let enough = self.number_at(2, place).at_most(count);
            if enough
                .and(count.at_most(self.number_at(3, place)))
                .is_never()
            {
                return Outlook::Never;
            }
        }
        Outlook::Open
    }

    /// Whether each element of the first argument is one of the second.
    pub(crate) fn is_closed(&self) -> Outlook
        ensures { (K : Values) → NumbersLie self.now 0 K → NumbersLie self.now 1 K → Decides result
            (is_closed (ints_at K (given self.now) 0) (ints_at K (given self.now) 1)) }
    {
        for place in 0..self.count(0) {
            if self.is_among(self.number_at(0, place), 1).is_never() {
                return Outlook::Never;
            }
        }
        Outlook::Open
    }

    /// How many different numbers the elements of the second argument are: as many as those are that
    /// can be only one, and at most one more for each other element.
    fn number_of_values(&self, alloc: Global) -> Result<Range, AllocError>
        ensures { IfOk result (λ r. (K : Values) → NumbersLie self.now 1 K
            → LiesIn r (pos (length (values_of (ints_at K (given self.now) 1))))) }
    {
        let fixed = self.fixed_numbers(alloc, 1)?;
        let Ok(distinct) = IntSet::list(alloc, &fixed) else {
            return Err(AllocError);
        };
        let least = Range::of(distinct.len() as i128);
        let others = Range::size(self.count(1)).minus(Range::size(fixed.len()));
        Ok(least.hull(least.plus(others)))
    }

    /// Whether the first argument is how many different numbers they are.
    pub(crate) fn has_so_many_values(&self, alloc: Global) -> Result<Outlook, AllocError>
        ensures { IfOk result (λ o. (K : Values) → NumberLies self.now 0 K
            → NumbersLie self.now 1 K → Decides o (int_at K (given self.now) 0
            =ℤ pos (length (values_of (ints_at K (given self.now) 1))))) }
    {
        Ok(self.number(0).equal(self.number_of_values(alloc)?))
    }
}
