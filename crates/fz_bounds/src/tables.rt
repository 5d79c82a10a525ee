//! Tables within bounds: the first argument has elements, and the second a table that is written row
//! by row.

ghost use Rattle.std.specs.Prelude.{◌≡◌, ◌+◌, ◌*◌, ◌≤◌, ◌<◌, drop, false, length, take, IfSome};
ghost use Rattle.fz_model.specs.Meaning.{Partial as Values};
ghost use Rattle.fz_model.specs.Relations.{◌=ℤ◌, is_row_of, is_same_list};
ghost use Rattle.fz_model.specs.of_builtins.of_kernel.Given.{ints_at, slots_at};
ghost use Rattle.fz_bounds.specs.Decided.{Decides};
ghost use Rattle.fz_bounds.specs.Within.{NumbersLie, given};

use crate::bounded::BoundedConstraint;
use crate::outlook::Outlook;

/// How many rows of a width a table of this size has, where it has only whole rows.
fn rows_of(width: usize, size: usize) -> Option<usize>
    ensures wide { IfSome result (λ rows. 0 < width) }
    ensures whole { IfSome result (λ rows. rows * width ≡ size) }
{
    if width == 0 {
        return None;
    }
    if size % width != 0 {
        return None;
    }
    Some(size / width)
}

impl<'s, 'a> BoundedConstraint<'s, 'a> {
    /// Whether the elements may be those of the table from an index on.
    fn may_stand_at(&self, start: usize, size: usize) -> bool
        requires room { start + length (slots_at (given self.now) 0) ≤ size }
        requires counted { size ≡ length (slots_at (given self.now) 1) }
        ensures { result ≡ false → (K : Values) → NumbersLie self.now 0 K → NumbersLie self.now 1 K
            → is_same_list ◌=ℤ◌ (ints_at K (given self.now) 0)
            (take (length (ints_at K (given self.now) 0))
            (drop start (ints_at K (given self.now) 1))) ≡ false }
    {
        for place in 0..self.count(0) {
            let cell = self.number_at(1, start + place);
            if self.number_at(0, place).equal(cell).is_never() {
                return false;
            }
        }
        true
    }

    /// Whether they may be one of so many rows.
    fn is_row_among(&self, rows: usize, width: usize, size: usize) -> Outlook
        requires wide { 0 < width }
        requires whole { rows * width ≡ size }
        requires columns { width ≡ length (slots_at (given self.now) 0) }
        requires counted { size ≡ length (slots_at (given self.now) 1) }
        ensures { (K : Values) → NumbersLie self.now 0 K → NumbersLie self.now 1 K → Decides result
            (is_row_of ◌=ℤ◌ (ints_at K (given self.now) 0) (ints_at K (given self.now) 1)) }
    {
        for row in 0..rows {
            if self.may_stand_at(row * width, size) {
                return Outlook::Open;
            }
        }
        Outlook::Never
    }

    /// Whether the elements may be a row.
    pub(crate) fn is_row_of(&self) -> Outlook
        ensures { (K : Values) → NumbersLie self.now 0 K → NumbersLie self.now 1 K → Decides result
            (is_row_of ◌=ℤ◌ (ints_at K (given self.now) 0) (ints_at K (given self.now) 1)) }
    {
        let (width, size) = (self.count(0), self.count(1));
        match rows_of(width, size) {
            Some(rows) => self.is_row_among(rows, width, size),
            None => Outlook::Open,
        }
    }
}
