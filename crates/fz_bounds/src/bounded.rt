//! The arguments of a constraint within bounds.

ghost use Rattle.std.specs.Prelude.{◌≡◌, ◌*ℤ◌, IfSome, not};
ghost use Rattle.std.specs.List.{list_all, list_any};
ghost use Rattle.fz_model.specs.Meaning.{Partial as Values};
ghost use Rattle.fz_model.specs.of_builtins.of_kernel.Given.{bool_at, bools_at, int_at};
ghost use Rattle.fz_model.specs.of_builtins.of_kernel.Views.{arguments_of, assigned};
ghost use Rattle.fz_bounds.specs.Decided.{Decides, LiesIn};
ghost use Rattle.fz_bounds.specs.Within.{NumberLies, TruthLies, TruthsLie, given};

use crate::outlook::Outlook;
use crate::range::Range;
use fz_kernel::ArgumentView;
use fz_kernel::arrays::{all_true, any_false, any_true};
use fz_store::{ConstraintParts, Partial};

/// A constraint with the least and the greatest values of variables.
#[derive(Clone, Copy)]
pub(crate) struct BoundedConstraint<'s, 'a> {
    pub(crate) parts: ConstraintParts<'s, 'a>,
    pub(crate) lowest: &'s Partial,
    pub(crate) highest: &'s Partial,
}

impl<'s, 'a> BoundedConstraint<'s, 'a> {
    /// The arguments at their least.
    pub(crate) fn low(&self) -> ArgumentView<'s, 'a>
        ensures arguments { arguments_of result ≡ given self.now }
        ensures assigned { assigned result ≡ self.now.lowest.now }
    {
        ArgumentView::new(self.parts, self.lowest)
    }

    /// The arguments at their greatest.
    pub(crate) fn high(&self) -> ArgumentView<'s, 'a>
        ensures arguments { arguments_of result ≡ given self.now }
        ensures assigned { assigned result ≡ self.now.highest.now }
    {
        ArgumentView::new(self.parts, self.highest)
    }

    /// The integer that is the argument at an index.
    pub(crate) fn number(&self, index: usize) -> Range
        ensures { (K : Values) → NumberLies self.now index K
            → LiesIn result (int_at K (given self.now) index) }
    {
        Range::between(self.low().int(index), self.high().int(index))
    }

    /// The integer, where it can be only one.
    pub(crate) fn only(&self, index: usize) -> Option<i64>
        ensures { IfSome result (λ c. (K : Values) → NumberLies self.now index K
            → int_at K (given self.now) index ≡ c) }
    {
        let low = self.low().int(index);
        let high = self.high().int(index);
        if high <= low { Some(low) } else { None }
    }

    /// The product of two arguments.
    pub(crate) fn product(&self, one: usize, other: usize) -> Range
        ensures { (K : Values) → NumberLies self.now one K → NumberLies self.now other K
            → LiesIn result (int_at K (given self.now) one *ℤ int_at K (given self.now) other) }
    {
        let least = self.number(other).times(self.low().int(one));
        let most = self.number(other).times(self.high().int(one));
        least.hull(most)
    }

    /// The Boolean that is the argument at an index.
    pub(crate) fn truth(&self, index: usize) -> Outlook
        ensures { (K : Values) → TruthLies self.now index K
            → Decides result (bool_at K (given self.now) index) }
    {
        Outlook::between(self.low().truth(index), self.high().truth(index))
    }

    /// Whether each element of the argument at an index is true.
    #[tactic(auto, using(crate::proofs::Truths::all_more, crate::proofs::Truths::all_less))]
    pub(crate) fn all_true(&self, index: usize) -> Outlook
        ensures { (K : Values) → TruthsLie self.now index K
            → Decides result (list_all (λ x. x) (bools_at K (given self.now) index)) }
    {
        if all_true(&self.low().elements(index)) {
            Outlook::Always
        } else if all_true(&self.high().elements(index)) {
            Outlook::Open
        } else {
            Outlook::Never
        }
    }

    /// Whether one of its elements is true.
    #[tactic(auto, using(crate::proofs::Truths::any_more, crate::proofs::Truths::any_less))]
    pub(crate) fn any_true(&self, index: usize) -> Outlook
        ensures { (K : Values) → TruthsLie self.now index K
            → Decides result (list_any (λ x. x) (bools_at K (given self.now) index)) }
    {
        if any_true(&self.low().elements(index)) {
            Outlook::Always
        } else if any_true(&self.high().elements(index)) {
            Outlook::Open
        } else {
            Outlook::Never
        }
    }

    /// Whether one of its elements is false.
    #[tactic(auto, using(crate::proofs::Truths::false_before, crate::proofs::Truths::none_false))]
    pub(crate) fn any_false(&self, index: usize) -> Outlook
        ensures { (K : Values) → TruthsLie self.now index K
            → Decides result (list_any (λ x. not x) (bools_at K (given self.now) index)) }
    {
        if any_false(&self.high().elements(index)) {
            Outlook::Always
        } else if any_false(&self.low().elements(index)) {
            Outlook::Open
        } else {
            Outlook::Never
        }
    }
}
