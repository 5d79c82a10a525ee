//! Order within bounds.

ghost use Rattle.std.specs.Prelude.{◌≡◌, ◌||◌, ℤ, Bool, not, pos};
ghost use Rattle.std.specs.List.{list_all};
ghost use Rattle.fz_model.specs.Meaning.{Partial as Values};
ghost use Rattle.fz_model.specs.Relations.{all_neighbours, precedes, rises_by_one};
ghost use Rattle.fz_model.specs.of_builtins.of_kernel.Given.{bools_at, int_at, ints_at};
ghost use Rattle.fz_bounds.specs.Decided.{Decides, LiesIn, in_order};
ghost use Rattle.fz_bounds.specs.Within.{NumberLies, NumbersLie, TruthsLie, given};

use crate::bounded::BoundedConstraint;
use crate::outlook::Outlook;
use crate::range::Range;

/// How a number compares with another.
#[derive(Clone, Copy)]
pub(crate) enum Order {
    Below,
    AtMost,
    AtLeast,
    Same,
}

impl Order {
    /// Of numbers.
    fn of(self, one: Range, next: Range) -> Outlook
        ensures { (a b : ℤ) → LiesIn one a → LiesIn next b → Decides result (in_order self a b) }
    {
        match self {
            Order::Below => one.below(next),
            Order::AtMost => one.at_most(next),
            Order::AtLeast => next.at_most(one),
            Order::Same => one.equal(next),
        }
    }
}

impl<'s, 'a> BoundedConstraint<'s, 'a> {
    /// Whether each element of the first argument compares so with the next one.
    pub(crate) fn are_in_order(&self, order: Order) -> Outlook
        ensures { (K : Values) → NumbersLie self.now 0 K → Decides result
            (all_neighbours (in_order order) (ints_at K (given self.now) 0)) }
    {
        for place in 1..self.count(0) {
            let before = self.number_at(0, place - 1);
            if order.of(before, self.number_at(0, place)).is_never() {
                return Outlook::Never;
            }
        }
        Outlook::Open
    }

    /// Whether each element of the second argument compares so with the first argument.
    pub(crate) fn all_are(&self, order: Order) -> Outlook
        ensures { (K : Values) → NumberLies self.now 0 K → NumbersLie self.now 1 K → Decides result
            (list_all (λ x. in_order order x (int_at K (given self.now) 0))
            (ints_at K (given self.now) 1)) }
    {
        for place in 0..self.count(1) {
            if order
                .of(self.number_at(1, place), self.number(0))
                .is_never()
            {
                return Outlook::Never;
            }
        }
        Outlook::Open
    }

    /// Whether no Boolean of the first argument is true before one that is false.
    pub(crate) fn are_rising(&self) -> Outlook
        ensures { (K : Values) → TruthsLie self.now 0 K → Decides result
            (all_neighbours (λ x y. not x || y) (bools_at K (given self.now) 0)) }
    {
        for place in 1..self.count(0) {
            let before = self.truth_at(0, place - 1);
            if before.negated().or(self.truth_at(0, place)).is_never() {
                return Outlook::Never;
            }
        }
        Outlook::Open
    }

    /// Whether none is false before one that is true.
    pub(crate) fn are_falling(&self) -> Outlook
        ensures { (K : Values) → TruthsLie self.now 0 K → Decides result
            (all_neighbours (λ x y. not y || x) (bools_at K (given self.now) 0)) }
    {
        for place in 1..self.count(0) {
            let before = self.truth_at(0, place - 1);
            if self.truth_at(0, place).negated().or(before).is_never() {
                return Outlook::Never;
            }
        }
        Outlook::Open
    }

    /// Whether a number is in an array only behind another.
    pub(crate) fn precedes(&self, first: Range, then: Range, array: usize) -> Outlook
        ensures { (K : Values) → NumbersLie self.now array K → (s t : ℤ) → LiesIn first s
            → LiesIn then t
            → Decides result (precedes s t (ints_at K (given self.now) array)) }
    {
        for place in 0..self.count(array) {
            let number = self.number_at(array, place);
            if number.equal(then).is_always() {
                return Outlook::Never;
            }
            if !number.equal(first).is_never() {
                return Outlook::Open;
            }
        }
        Outlook::Open
    }

    /// Whether each number of the first argument precedes the next one in the second.
    pub(crate) fn precede_in_turn(&self) -> Outlook
        ensures { (K : Values) → NumbersLie self.now 0 K → NumbersLie self.now 1 K → Decides result
            (all_neighbours (λ s t. precedes s t (ints_at K (given self.now) 1))
            (ints_at K (given self.now) 0)) }
    {
        for place in 1..self.count(0) {
            let before = self.number_at(0, place - 1);
            if self
                .precedes(before, self.number_at(0, place), 1)
                .is_never()
            {
                return Outlook::Never;
            }
        }
        Outlook::Open
    }

    /// Whether each element of the first argument is greater by at most one than the greatest
    /// before it, or than 0.
    pub(crate) fn rise_by_one(&self) -> Outlook
        ensures { (K : Values) → NumbersLie self.now 0 K
            → Decides result (rises_by_one (pos 0) (ints_at K (given self.now) 0)) }
    {
        let mut most = Range::of(0);
        for place in 0..self.count(0) {
            let number = self.number_at(0, place);
            if number.at_most(most.plus(Range::of(1))).is_never() {
                return Outlook::Never;
            }
            most = most.max(number);
        }
        Outlook::Open
    }
}
