//! Items in bins within bounds.

ghost use Rattle.std.specs.Prelude.{◌≡◌, ◌+ℤ◌, ◌-ℤ◌, ℤ, int_le, length, pos};
ghost use Rattle.std.specs.List.{list_all};
ghost use Rattle.fz_model.specs.Meaning.{Partial as Values};
ghost use Rattle.fz_model.specs.Relations.{lies_between, load_of, loads_are};
ghost use Rattle.fz_model.specs.of_builtins.of_kernel.Given.{int_at, ints_at};
ghost use Rattle.fz_bounds.specs.Decided.{Decides, LiesIn};
ghost use Rattle.fz_bounds.specs.Within.{NumberLies, NumbersLie, given};

use crate::bounded::BoundedConstraint;
use crate::outlook::Outlook;
use crate::range::Range;

impl<'s, 'a> BoundedConstraint<'s, 'a> {
    /// The load of a bin. The second argument has the items' bins, and the third their weights.
    fn load_of(&self, bin: Range) -> Range
        ensures { (K : Values) → NumbersLie self.now 1 K → NumbersLie self.now 2 K → (v : ℤ)
            → LiesIn bin v → LiesIn result
            (load_of (ints_at K (given self.now) 1) (ints_at K (given self.now) 2) v) }
    {
        let mut load = Range::of(0);
        for item in 0..self.count(1).min(self.count(2)) {
            let is_there = self.number_at(1, item).equal(bin);
            load = load.plus(self.number_at(2, item).where_holds(is_there));
        }
        load
    }

    /// Whether the load of each bin that an item is in is at most the first argument. Only bins in
    /// which an item has to be are looked at: in others there may be nothing.
    pub(crate) fn loads_are_within(&self) -> Outlook
        ensures { (K : Values) → NumberLies self.now 0 K → NumbersLie self.now 1 K
            → NumbersLie self.now 2 K → Decides result (list_all (λ v. int_le
            (load_of (ints_at K (given self.now) 1) (ints_at K (given self.now) 2) v)
            (int_at K (given self.now) 0)) (ints_at K (given self.now) 1)) }
    {
        for item in 0..self.count(1) {
            let bin = self.number_at(1, item);
            if bin.is_one() && self.load_of(bin).at_most(self.number(0)).is_never() {
                return Outlook::Never;
            }
        }
        Outlook::Open
    }

    /// Whether each item is in one of the bins of the first argument, which has the loads from the
    /// bin on that is the fourth.
    pub(crate) fn are_in_bins(&self) -> Outlook
        ensures { (K : Values) → NumbersLie self.now 1 K → NumberLies self.now 3 K → Decides result
            (list_all (lies_between (int_at K (given self.now) 3) ((int_at K (given self.now) 3
            +ℤ pos (length (ints_at K (given self.now) 0))) -ℤ pos 1))
            (ints_at K (given self.now) 1)) }
    {
        let first = self.number(3);
        let last = first.plus(Range::size(self.count(0))).minus(Range::of(1));
        for item in 0..self.count(1) {
            let bin = self.number_at(1, item);
            if first.at_most(bin).and(bin.at_most(last)).is_never() {
                return Outlook::Never;
            }
        }
        Outlook::Open
    }

    /// Whether each bin has its load.
    pub(crate) fn loads_are(&self) -> Outlook
        ensures { (K : Values) → NumbersLie self.now 0 K → NumbersLie self.now 1 K
            → NumbersLie self.now 2 K → NumberLies self.now 3 K → Decides result
            (loads_are (int_at K (given self.now) 3) (ints_at K (given self.now) 1)
            (ints_at K (given self.now) 2) (ints_at K (given self.now) 0)) }
    {
        for place in 0..self.count(0) {
            let load = self.load_of(self.number(3).plus(Range::size(place)));
            if self.number_at(0, place).equal(load).is_never() {
                return Outlook::Never;
            }
        }
        Outlook::Open
    }
}
