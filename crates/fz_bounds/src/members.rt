//! Members of sets within bounds.

ghost use Rattle.std.specs.Prelude.{◌≡◌, ◌<◌, ℤ, Some, length, slice_get};
ghost use Rattle.std.specs.FinSet.{contains};
ghost use Rattle.fz_model.specs.Meaning.{Partial as Values};
ghost use Rattle.fz_model.specs.Relations.{count_in};
ghost use Rattle.fz_model.specs.of_builtins.of_kernel.Given.{int_at, ints_at, set_at, slots_at};
ghost use Rattle.fz_bounds.specs.Decided.{Decides, LiesIn};
ghost use Rattle.fz_bounds.specs.Within.{NumberLies, NumbersLie, SetLies, given};

use crate::bounded::BoundedConstraint;
use crate::declarations::membership;
use crate::outlook::Outlook;
use crate::range::Range;

impl<'s, 'a> BoundedConstraint<'s, 'a> {
    /// Whether the first argument is in the set that is the second.
    pub(crate) fn is_in(&self) -> Outlook
        ensures { (K : Values) → NumberLies self.now 0 K → SetLies self.now 1 K → Decides result
            (contains (set_at K (given self.now) 1) (int_at K (given self.now) 0)) }
    {
        membership(self.low().set(1), self.low().int(0), self.high().int(0))
    }

    /// Whether an element of the second argument is in the set that is the third.
    fn element_is_in(&self, place: usize) -> Outlook
        requires in_range { place < length (slots_at (given self.now) 1) }
        ensures { (K : Values) → NumbersLie self.now 1 K → SetLies self.now 2 K → (n : ℤ)
            → slice_get (ints_at K (given self.now) 1) place ≡ Some n
            → Decides result (contains (set_at K (given self.now) 2) n) }
    {
        membership(
            self.low().set(2),
            self.least(1, place),
            self.greatest(1, place),
        )
    }

    /// How many elements of the second argument are in the set that is the third.
    pub(crate) fn count_in(&self) -> Range
        ensures { (K : Values) → NumbersLie self.now 1 K → SetLies self.now 2 K → LiesIn result
            (count_in (ints_at K (given self.now) 1) (set_at K (given self.now) 2)) }
    {
        let mut sum = Range::of(0);
        for place in 0..self.count(1) {
            sum = sum.plus(self.element_is_in(place).number());
        }
        sum
    }
}
