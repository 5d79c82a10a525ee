//! Rows over the elements of arrays within bounds.

ghost use Rattle.std.specs.Prelude.{◌≡◌, ◌<◌, ℤ, Bool, IfSome, Some, length, slice_get};
ghost use Rattle.fz_model.specs.Meaning.{Partial as Values};
ghost use Rattle.fz_model.specs.Relations.{◌=ℤ◌, ◌=ᴮ◌, count_of, is_among, is_element, products, total, where_true};
ghost use Rattle.fz_model.specs.of_builtins.of_kernel.Given.{bool_at, bools_at, int_at, ints_at, slots_at};
ghost use Rattle.fz_bounds.specs.Decided.{Decides, LiesIn};
ghost use Rattle.fz_bounds.specs.Within.{ElementsLie, NumberLies, NumbersLie, TruthLies, TruthsLie, given, numbers_at};

use crate::bounded::BoundedConstraint;
use crate::outlook::Outlook;
use crate::range::Range;

impl<'s, 'a> BoundedConstraint<'s, 'a> {
    /// How many elements the argument at an index has.
    pub(crate) fn count(&self, index: usize) -> usize
        ensures { result ≡ length (slots_at (given self.now) index) }
    {
        self.low().elements(index).len()
    }

    /// The least value of an element of an array of integers.
    pub(crate) fn least(&self, index: usize, place: usize) -> i64
        requires in_range { place < length (slots_at (given self.now) index) }
        ensures { slice_get (ints_at self.now.lowest.now (given self.now) index) place
            ≡ Some result }
    {
        self.low().elements(index).int(place)
    }

    /// Its greatest value.
    pub(crate) fn greatest(&self, index: usize, place: usize) -> i64
        requires in_range { place < length (slots_at (given self.now) index) }
        ensures { slice_get (ints_at self.now.highest.now (given self.now) index) place
            ≡ Some result }
    {
        self.high().elements(index).int(place)
    }

    /// Whether an element of an array of Booleans can only be true.
    fn must_be(&self, index: usize, place: usize) -> bool
        requires in_range { place < length (slots_at (given self.now) index) }
        ensures { slice_get (bools_at self.now.lowest.now (given self.now) index) place
            ≡ Some result }
    {
        self.low().elements(index).truth(place)
    }

    /// Whether it can be true.
    fn may_be(&self, index: usize, place: usize) -> bool
        requires in_range { place < length (slots_at (given self.now) index) }
        ensures { slice_get (bools_at self.now.highest.now (given self.now) index) place
            ≡ Some result }
    {
        self.high().elements(index).truth(place)
    }

    /// The element of an array of integers.
    pub(crate) fn number_at(&self, index: usize, place: usize) -> Range
        requires in_range { place < length (slots_at (given self.now) index) }
        ensures { (K : Values) → NumbersLie self.now index K → (n : ℤ)
            → slice_get (ints_at K (given self.now) index) place ≡ Some n → LiesIn result n }
    {
        Range::between(self.least(index, place), self.greatest(index, place))
    }

    /// The element of an array of Booleans.
    pub(crate) fn truth_at(&self, index: usize, place: usize) -> Outlook
        requires in_range { place < length (slots_at (given self.now) index) }
        ensures { (K : Values) → TruthsLie self.now index K → (b : Bool)
            → slice_get (bools_at K (given self.now) index) place ≡ Some b → Decides result b }
    {
        Outlook::between(self.must_be(index, place), self.may_be(index, place))
    }

    /// The element as a number, of an array of Booleans or of integers.
    pub(crate) fn element(&self, truths: bool, index: usize, place: usize) -> Range
        requires in_range { place < length (slots_at (given self.now) index) }
        ensures { (K : Values) → ElementsLie truths self.now index K → (n : ℤ)
            → slice_get (numbers_at truths K (given self.now) index) place ≡ Some n
            → LiesIn result n }
    {
        if truths {
            self.truth_at(index, place).number()
        } else {
            self.number_at(index, place)
        }
    }

    /// The number that the element is, where it can be only one; a coefficient mostly is.
    pub(crate) fn only_at(&self, index: usize, place: usize) -> Option<i64>
        requires in_range { place < length (slots_at (given self.now) index) }
        ensures { IfSome result (λ c. (K : Values) → NumbersLie self.now index K → (n : ℤ)
            → slice_get (ints_at K (given self.now) index) place ≡ Some n → n ≡ c) }
    {
        let low = self.least(index, place);
        let high = self.greatest(index, place);
        if high <= low { Some(low) } else { None }
    }

    /// The sum of the products of the elements of two arrays.
    pub(crate) fn sum_of_products(&self, factors: usize, array: usize) -> Range
        ensures { (K : Values) → NumbersLie self.now factors K → NumbersLie self.now array K
            → LiesIn result (total (products (ints_at K (given self.now) factors)
            (ints_at K (given self.now) array))) }
    {
        let mut sum = Range::of(0);
        for place in 0..self.count(factors).min(self.count(array)) {
            let Some(coefficient) = self.only_at(factors, place) else {
                return Range::unknown();
            };
            sum = sum.plus(self.number_at(array, place).times(coefficient));
        }
        sum
    }

    /// The sum of those elements of the first argument of which the second argument's are true.
    pub(crate) fn sum_where_true(&self) -> Range
        ensures { (K : Values) → NumbersLie self.now 0 K → TruthsLie self.now 1 K → LiesIn result
            (total (where_true (ints_at K (given self.now) 0) (bools_at K (given self.now) 1))) }
    {
        let mut sum = Range::of(0);
        for place in 0..self.count(0).min(self.count(1)) {
            let Some(coefficient) = self.only_at(0, place) else {
                return Range::unknown();
            };
            sum = sum.plus(self.truth_at(1, place).number().times(coefficient));
        }
        sum
    }

    /// How many elements of an array of integers are a number.
    pub(crate) fn count_of(&self, array: usize, wanted: Range) -> Range
        ensures { (K : Values) → NumbersLie self.now array K → (v : ℤ) → LiesIn wanted v
            → LiesIn result (count_of (ints_at K (given self.now) array) v) }
    {
        let mut sum = Range::of(0);
        for place in 0..self.count(array) {
            let same = self.number_at(array, place).equal(wanted);
            sum = sum.plus(same.number());
        }
        sum
    }

    /// Whether the element of the second argument, at the index that is the first, is the third.
    pub(crate) fn int_element(&self) -> Outlook
        ensures { (K : Values) → NumberLies self.now 0 K → NumbersLie self.now 1 K
            → NumberLies self.now 2 K → Decides result (is_element ◌=ℤ◌
            (int_at K (given self.now) 0) (ints_at K (given self.now) 1)
            (int_at K (given self.now) 2)) }
    {
        for place in 0..self.count(1) {
            let here = self.number(0).equal(Range::index(place));
            let same = self.number_at(1, place).equal(self.number(2));
            if !here.and(same).is_never() {
                return Outlook::Open;
            }
        }
        Outlook::Never
    }

    /// The same of Booleans.
    pub(crate) fn bool_element(&self) -> Outlook
        ensures { (K : Values) → NumberLies self.now 0 K → TruthsLie self.now 1 K
            → TruthLies self.now 2 K → Decides result (is_element ◌=ᴮ◌ (int_at K (given self.now) 0)
            (bools_at K (given self.now) 1) (bool_at K (given self.now) 2)) }
    {
        for place in 0..self.count(1) {
            let here = self.number(0).equal(Range::index(place));
            let same = self.truth_at(1, place).same(self.truth(2));
            if !here.and(same).is_never() {
                return Outlook::Open;
            }
        }
        Outlook::Never
    }

    /// Whether a number is among the elements of an array.
    pub(crate) fn is_among(&self, wanted: Range, array: usize) -> Outlook
        ensures { (K : Values) → NumbersLie self.now array K → (v : ℤ) → LiesIn wanted v
            → Decides result (is_among v (ints_at K (given self.now) array)) }
    {
        for place in 0..self.count(array) {
            if !self.number_at(array, place).equal(wanted).is_never() {
                return Outlook::Open;
            }
        }
        Outlook::Never
    }
}
