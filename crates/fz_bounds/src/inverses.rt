//! Inverse lists within bounds.

ghost use Rattle.std.specs.Prelude.{◌≡◌, IsTrue, false, pos};
ghost use Rattle.fz_model.specs.Meaning.{Partial as Values};
ghost use Rattle.fz_model.specs.Relations.{are_inverse, as_places, leads_back};
ghost use Rattle.fz_model.specs.of_builtins.of_kernel.Given.{int_at, ints_at};
ghost use Rattle.fz_bounds.specs.Decided.{Decides};
ghost use Rattle.fz_bounds.specs.Within.{NumberLies, NumbersLie, given};

use crate::bounded::BoundedConstraint;
use crate::outlook::Outlook;
use crate::range::Range;

impl<'s, 'a> BoundedConstraint<'s, 'a> {
    /// Whether an array names what is no place of another one, or a place at which that must name
    /// another place. The index that its numbers begin with is the argument behind each.
    fn leads_elsewhere(&self, array: usize, first: usize, other: usize, other_first: usize) -> bool
        ensures { IsTrue result → (K : Values) → NumbersLie self.now array K
            → NumberLies self.now first K → NumbersLie self.now other K
            → NumberLies self.now other_first K → leads_back (pos 1)
            (as_places (int_at K (given self.now) first) (ints_at K (given self.now) array))
            (as_places (int_at K (given self.now) other_first) (ints_at K (given self.now) other))
            ≡ false }
    {
        for place in 0..self.count(array) {
            if self.names_none(first, array, place, other) {
                return true;
            }
            if let Some(there) = self.place_at(first, array, place, self.count(other)) {
                let back = self.successor(other_first, other, there);
                if back.equal(Range::index(place)).is_never() {
                    return true;
                }
            }
        }
        false
    }

    /// Whether each of two lists is the inverse of the other.
    pub(crate) fn are_inverse(&self) -> Outlook
        ensures { (K : Values) → NumbersLie self.now 0 K → NumberLies self.now 1 K
            → NumbersLie self.now 2 K → NumberLies self.now 3 K → Decides result (are_inverse
            (as_places (int_at K (given self.now) 1) (ints_at K (given self.now) 0))
            (as_places (int_at K (given self.now) 3) (ints_at K (given self.now) 2))) }
    {
        if self.leads_elsewhere(0, 1, 2, 3) {
            return Outlook::Never;
        }
        if self.leads_elsewhere(2, 3, 0, 1) {
            return Outlook::Never;
        }
        Outlook::Open
    }
}
