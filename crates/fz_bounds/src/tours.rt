//! Tours within bounds: the first argument is the index that the list of successors, the second,
//! begins with.

ghost use Rattle.std.specs.Prelude.{◌≡◌, ◌<◌, ◌+◌, ℤ, pos, IfOk, IfSome, IsTrue, Some, false, length, slice_get};
ghost use Rattle.fz_model.specs.Meaning.{Partial as Values};
ghost use Rattle.fz_model.specs.Relations.{are_places, as_places, end_of_tour, is_circuit, is_subcircuit, lies_between};
ghost use Rattle.fz_model.specs.of_builtins.of_kernel.Given.{int_at, ints_at, slots_at};
ghost use Rattle.fz_bounds.specs.Decided.{Decides, LiesIn};
ghost use Rattle.fz_bounds.specs.Within.{NumberLies, NumbersLie, given};

use crate::bounded::BoundedConstraint;
use crate::outlook::Outlook;
use crate::range::Range;
use fz_globals::place_from;
use std::alloc::{AllocError, Global};

impl<'s, 'a> BoundedConstraint<'s, 'a> {
    /// The position, counted from 1, that an array names at a place; its indices begin with an
    /// argument.
    pub(crate) fn successor(&self, first: usize, array: usize, place: usize) -> Range
        requires in_range { place < length (slots_at (given self.now) array) }
        ensures { (K : Values) → NumberLies self.now first K → NumbersLie self.now array K
            → (n : ℤ) → slice_get (as_places (int_at K (given self.now) first)
            (ints_at K (given self.now) array)) place ≡ Some n → LiesIn result n }
    {
        self.number_at(array, place)
            .minus(self.number(first))
            .plus(Range::of(1))
    }

    /// Whether it can be no position of another array.
    pub(crate) fn names_none(&self, first: usize, array: usize, place: usize, other: usize) -> bool
        requires in_range { place < length (slots_at (given self.now) array) }
        ensures { IsTrue result → (K : Values) → NumberLies self.now first K
            → NumbersLie self.now array K → (n : ℤ) → slice_get
            (as_places (int_at K (given self.now) first) (ints_at K (given self.now) array)) place
            ≡ Some n → lies_between (pos 1) (pos (length (ints_at K (given self.now) other))) n
            ≡ false }
    {
        let named = self.successor(first, array, place);
        let last = Range::size(self.count(other));
        Range::of(1)
            .at_most(named)
            .and(named.at_most(last))
            .is_never()
    }

    /// Whether a successor can be none of the positions.
    fn leaves_places(&self) -> bool
        ensures { IsTrue result → (K : Values) → NumberLies self.now 0 K → NumbersLie self.now 1 K
            → are_places (length (ints_at K (given self.now) 1))
            (as_places (int_at K (given self.now) 0) (ints_at K (given self.now) 1)) ≡ false }
    {
        for place in 0..self.count(1) {
            if self.names_none(0, 1, place, 1) {
                return true;
            }
        }
        false
    }

    /// The place that an array names at a place, where it can be only one, of so many.
    pub(crate) fn place_at(
        &self,
        first: usize,
        array: usize,
        place: usize,
        count: usize,
    ) -> Option<usize>
        requires in_range { place < length (slots_at (given self.now) array) }
        ensures inside { IfSome result (λ q. q < count) }
        ensures next { IfSome result (λ q. (K : Values) → NumberLies self.now first K
            → NumbersLie self.now array K → slice_get (as_places (int_at K (given self.now) first)
            (ints_at K (given self.now) array)) place ≡ Some (pos (q + 1))) }
    {
        let least = self.only(first)?;
        let number = self.only_at(array, place)?;
        let named = place_from(number, least, count)?;
        Some(named)
    }

    /// How many steps lead from a place back to it for the first time, where they are fixed.
    fn ring_from(&self, start: usize) -> Option<usize>
        requires in_range { start < length (slots_at (given self.now) 1) }
        ensures some { IfSome result (λ k. 0 < k) }
        ensures back { IfSome result (λ k. (K : Values) → NumberLies self.now 0 K
            → NumbersLie self.now 1 K → end_of_tour (as_places (int_at K (given self.now) 0)
            (ints_at K (given self.now) 1)) k (pos (start + 1)) ≡ Some (pos (start + 1))) }
    {
        let mut place = start;
        for step in 0..self.count(1) {
            place = self.place_at(0, 1, place, self.count(1))?;
            if place == start {
                return Some(step + 1);
            }
        }
        None
    }

    /// A place on a ring of fixed successors. It steps on each place once.
    fn place_on_ring(&self, alloc: Global) -> Result<Option<usize>, AllocError> {
        let count = self.count(1);
        let mut walks = vec![in alloc; 0_usize; count]?;
        for start in 0..count {
            let walk = start + 1;
            let mut place = start;
            for _ in 0..count {
                let Some(mark) = walks.get_mut(place) else {
                    break;
                };
                match std::mem::replace(mark, walk) {
                    0 => (),
                    before if before == walk => return Ok(Some(place)),
                    _ => break,
                }
                let Some(next) = self.place_at(0, 1, place, count) else {
                    break;
                };
                place = next;
            }
        }
        Ok(None)
    }

    /// Whether a ring of fixed successors has some of the places alone.
    fn closes_early(&self, alloc: Global) -> Result<bool, AllocError>
        ensures { IfOk result (λ b. IsTrue b → (K : Values) → NumberLies self.now 0 K
            → NumbersLie self.now 1 K → is_circuit (as_places (int_at K (given self.now) 0)
            (ints_at K (given self.now) 1)) ≡ false) }
    {
        let count = self.count(1);
        let Some(start) = self.place_on_ring(alloc)? else {
            return Ok(false);
        };
        if start >= count {
            return Ok(false);
        }
        let Some(steps) = self.ring_from(start) else {
            return Ok(false);
        };
        if steps < count {
            return Ok(true);
        }
        Ok(false)
    }

    /// Whether the successors lead from the first position to all, to each once, and back.
    pub(crate) fn is_circuit(&self, alloc: Global) -> Result<Outlook, AllocError>
        ensures { IfOk result (λ o. (K : Values) → NumberLies self.now 0 K
            → NumbersLie self.now 1 K → Decides o (is_circuit
            (as_places (int_at K (given self.now) 0) (ints_at K (given self.now) 1)))) }
    {
        if self.leaves_places() {
            return Ok(Outlook::Never);
        }
        let repeated = self.repeats(alloc, 1)?;
        if repeated {
            return Ok(Outlook::Never);
        }
        let closed = self.closes_early(alloc)?;
        if closed {
            return Ok(Outlook::Never);
        }
        Ok(Outlook::Open)
    }

    /// Whether they are a permutation, whose moved positions make one cycle.
    pub(crate) fn is_subcircuit(&self, alloc: Global) -> Result<Outlook, AllocError>
        ensures { IfOk result (λ o. (K : Values) → NumberLies self.now 0 K
            → NumbersLie self.now 1 K → Decides o (is_subcircuit
            (as_places (int_at K (given self.now) 0) (ints_at K (given self.now) 1)))) }
    {
        if self.leaves_places() {
            return Ok(Outlook::Never);
        }
        let repeated = self.repeats(alloc, 1)?;
        if repeated {
            return Ok(Outlook::Never);
        }
        Ok(Outlook::Open)
    }
}
