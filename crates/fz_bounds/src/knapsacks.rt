//! Knapsacks within bounds: the first two arguments have the weights and the profits of things, the
//! third how many there are of each, and the last two the total weight and the total profit.

ghost use Rattle.std.specs.List.{list_all};
ghost use Rattle.fz_model.specs.Meaning.{Partial as Values};
ghost use Rattle.fz_model.specs.Relations.{is_knapsack, is_natural};
ghost use Rattle.fz_model.specs.of_builtins.of_kernel.Given.{int_at, ints_at};
ghost use Rattle.fz_bounds.specs.Decided.{Decides};
ghost use Rattle.fz_bounds.specs.Within.{NumberLies, NumbersLie, given};

use crate::bounded::BoundedConstraint;
use crate::outlook::Outlook;

impl<'s, 'a> BoundedConstraint<'s, 'a> {
    /// Whether each element of an array is 0 or more.
    fn are_natural(&self, array: usize) -> Outlook
        ensures { (K : Values) → NumbersLie self.now array K
            → Decides result (list_all is_natural (ints_at K (given self.now) array)) }
    {
        for place in 0..self.count(array) {
            if self.number_at(array, place).is_natural().is_never() {
                return Outlook::Never;
            }
        }
        Outlook::Open
    }

    /// Whether no number is below 0, and both sums of products are as they are given.
    pub(crate) fn fills_knapsack(&self) -> Outlook
        ensures { (K : Values) → NumbersLie self.now 0 K → NumbersLie self.now 1 K
            → NumbersLie self.now 2 K → NumberLies self.now 3 K → NumberLies self.now 4 K
            → Decides result (is_knapsack (ints_at K (given self.now) 0)
            (ints_at K (given self.now) 1) (ints_at K (given self.now) 2)
            (int_at K (given self.now) 3) (int_at K (given self.now) 4)) }
    {
        let (weight, profit) = (self.number(3), self.number(4));
        self.are_natural(2)
            .and(weight.is_natural())
            .and(profit.is_natural())
            .and(self.sum_of_products(0, 2).equal(weight))
            .and(self.sum_of_products(1, 2).equal(profit))
    }
}
