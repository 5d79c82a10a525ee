//! Boxes within bounds. Along the first axis the first argument has their starts, and along the
//! second axis the fourth has their sizes.

ghost use Rattle.std.specs.Prelude.{◌≡◌, ◌||◌, ◌<◌, ℤ, IsTrue, Some, false, length, pos, slice_get};
ghost use Rattle.fz_model.specs.Meaning.{Partial as Values};
ghost use Rattle.fz_model.specs.Relations.{◌=ℤ◌, all_pairs, boxes};
ghost use Rattle.fz_model.specs.of_builtins.of_kernel.Given.{ints_at, slots_at};
ghost use Rattle.fz_bounds.specs.Decided.{Decides};
ghost use Rattle.fz_bounds.specs.Spans.{boxes_apart};
ghost use Rattle.fz_bounds.specs.Within.{NumbersLie, given};

use crate::bounded::BoundedConstraint;
use crate::outlook::Outlook;

impl<'s, 'a> BoundedConstraint<'s, 'a> {
    /// Whether one of the sizes of a box is 0.
    fn has_no_area(&self, width: usize, place: usize) -> Outlook
        requires width { place < length (slots_at (given self.now) width) }
        requires height { place < length (slots_at (given self.now) 3) }
        ensures { (K : Values) → NumbersLie self.now width K → NumbersLie self.now 3 K → (d e : ℤ)
            → slice_get (ints_at K (given self.now) width) place ≡ Some d
            → slice_get (ints_at K (given self.now) 3) place ≡ Some e
            → Decides result ((d =ℤ pos 0) || (e =ℤ pos 0)) }
    {
        self.is_empty(width, place).or(self.is_empty(3, place))
    }

    /// Whether a box must overlap one before it.
    fn box_overlaps(&self, y: usize, width: usize, spare: bool, place: usize) -> bool
        requires x { place < length (slots_at (given self.now) 0) }
        requires y { place < length (slots_at (given self.now) y) }
        requires width { place < length (slots_at (given self.now) width) }
        requires height { place < length (slots_at (given self.now) 3) }
        ensures { IsTrue result → (K : Values) → NumbersLie self.now 0 K → NumbersLie self.now y K
            → NumbersLie self.now width K → NumbersLie self.now 3 K → all_pairs (boxes_apart spare)
            (boxes (ints_at K (given self.now) 0) (ints_at K (given self.now) y)
            (ints_at K (given self.now) width) (ints_at K (given self.now) 3)) ≡ false }
    {
        for before in 0..place {
            let beside = self.are_apart(0, width, before, place);
            let apart = beside.or(self.are_apart(y, 3, before, place));
            let empty = self
                .has_no_area(width, before)
                .or(self.has_no_area(width, place));
            if Outlook::of(spare).and(empty).or(apart).is_never() {
                return true;
            }
        }
        false
    }

    /// Whether no two boxes have anything in common; those without an area may be spared.
    pub(crate) fn boxes_keep_apart(&self, y: usize, width: usize, spare: bool) -> Outlook
        ensures { (K : Values) → NumbersLie self.now 0 K → NumbersLie self.now y K
            → NumbersLie self.now width K → NumbersLie self.now 3 K → Decides result
            (all_pairs (boxes_apart spare) (boxes (ints_at K (given self.now) 0)
            (ints_at K (given self.now) y) (ints_at K (given self.now) width)
            (ints_at K (given self.now) 3))) }
    {
        let beside = self.count(0).min(self.count(width));
        let above = self.count(y).min(self.count(3));
        for place in 0..beside.min(above) {
            if self.box_overlaps(y, width, spare, place) {
                return Outlook::Never;
            }
        }
        Outlook::Open
    }
}
