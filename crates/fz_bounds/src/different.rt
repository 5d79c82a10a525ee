//! Different elements within bounds.

ghost use Rattle.std.specs.Prelude.{◌≡◌, ◌<◌, ℕ, IfOk, IsTrue, Some, false, length, slice_get};
ghost use Rattle.std.specs.List.{filter};
ghost use Rattle.fz_model.specs.Meaning.{Partial as Values};
ghost use Rattle.fz_model.specs.Relations.{all_different, is_nonzero};
ghost use Rattle.fz_model.specs.of_builtins.of_kernel.Given.{ints_at, slots_at};
ghost use Rattle.fz_bounds.specs.Decided.{Decides};
ghost use Rattle.fz_bounds.specs.Picked.{IsPicked};
ghost use Rattle.fz_bounds.specs.Within.{NumbersLie, given};

use crate::bounded::BoundedConstraint;
use crate::outlook::Outlook;
use fz_kernel::distinct::all_different;
use std::alloc::{AllocError, Global};

impl<'s, 'a> BoundedConstraint<'s, 'a> {
    /// Whether an element before a place can only be this number.
    fn stands_before(&self, place: usize, number: i64) -> bool
        requires in_range { place < length (slots_at (given self.now) 0) }
        ensures { IsTrue result → (K : Values) → NumbersLie self.now 0 K → (p : ℕ) × (p < place)
            × (slice_get (ints_at K (given self.now) 0) p ≡ Some number) }
    {
        for before in 0..place {
            if let Some(only) = self.only_at(0, before) {
                if only == number {
                    return true;
                }
            }
        }
        false
    }

    /// Whether the first argument has more elements than there are numbers from the least to the
    /// greatest that an element may be.
    fn are_crowded(&self) -> bool
        ensures { IsTrue result → (K : Values) → NumbersLie self.now 0 K
            → all_different (ints_at K (given self.now) 0) ≡ false }
    {
        let count = self.count(0);
        if count == 0 {
            return false;
        }
        let mut hull = self.number_at(0, 0);
        for place in 0..count {
            hull = hull.hull(self.number_at(0, place));
        }
        hull.has_fewer_than(count)
    }

    /// The elements of an array that can be only one number.
    pub(crate) fn fixed_numbers(&self, alloc: Global, array: usize) -> Result<Vec<i64>, AllocError>
        ensures { IfOk result (λ v. (K : Values) → NumbersLie self.now array K
            → IsPicked v.items (ints_at K (given self.now) array)) }
    {
        let mut numbers = Vec::with_capacity(alloc, self.count(array))?;
        for place in 0..self.count(array) {
            if let Some(number) = self.only_at(array, place) {
                numbers.push(number)?;
            }
        }
        Ok(numbers)
    }

    /// Whether two elements of an array can only be the same number.
    pub(crate) fn repeats(&self, alloc: Global, array: usize) -> Result<bool, AllocError>
        ensures { IfOk result (λ b. IsTrue b → (K : Values) → NumbersLie self.now array K
            → all_different (ints_at K (given self.now) array) ≡ false) }
    {
        let mut numbers = self.fixed_numbers(alloc, array)?;
        Ok(!all_different(&mut numbers))
    }

    /// Whether no two elements of the first argument are equal.
    pub(crate) fn all_different(&self, alloc: Global) -> Result<Outlook, AllocError>
        ensures { IfOk result (λ o. (K : Values) → NumbersLie self.now 0 K
            → Decides o (all_different (ints_at K (given self.now) 0))) }
    {
        if self.are_crowded() {
            return Ok(Outlook::Never);
        }
        let repeated = self.repeats(alloc, 0)?;
        if repeated {
            return Ok(Outlook::Never);
        }
        Ok(Outlook::Open)
    }

    /// Whether no two elements of the first argument are equal, unless they are 0.
    pub(crate) fn different_but_zeros(&self) -> Outlook
        ensures { (K : Values) → NumbersLie self.now 0 K
            → Decides result (all_different (filter is_nonzero (ints_at K (given self.now) 0))) }
    {
        for place in 0..self.count(0) {
            if let Some(number) = self.only_at(0, place) {
                if number != 0 && self.stands_before(place, number) {
                    return Outlook::Never;
                }
            }
        }
        Outlook::Open
    }
}
