//! Ranges of numbers, and what they say of tests of numbers.

ghost use Rattle.std.specs.Prelude.{◌≡◌, ℤ, Bool, cond, pos, ◌+◌, ◌+ℤ◌, ◌-ℤ◌, ◌*ℤ◌, int_le, int_lt, IfSome, IsSomeAnd, IsTrue, true, unsigned_abs};
ghost use Rattle.std.specs.Int.{int_max, int_min};
ghost use Rattle.fz_model.specs.Relations.{◌=ℤ◌, is_natural};
ghost use Rattle.fz_bounds.specs.Decided.{Decides, LiesIn};

use crate::outlook::Outlook;

/// The numbers from one to another, where these are known.
#[derive(Clone, Copy)]
pub struct Range {
    pub low: Option<i128>,
    pub high: Option<i128>,
}

/// Whether both ends are known, and one is at most the other.
fn is_at_most(one: Option<i128>, other: Option<i128>) -> bool
    ensures { IsTrue result → IsSomeAnd one (λ a. IsSomeAnd other (λ b. int_le a b ≡ true)) }
{
    match (one, other) {
        (Some(one), Some(other)) => one <= other,
        _ => false,
    }
}

/// The same of being less.
fn is_below(one: Option<i128>, other: Option<i128>) -> bool
    ensures { IsTrue result → IsSomeAnd one (λ a. IsSomeAnd other (λ b. int_lt a b ≡ true)) }
{
    match (one, other) {
        (Some(one), Some(other)) => one < other,
        _ => false,
    }
}

/// The sum, where both are known and it has 128 bits.
fn added(one: Option<i128>, other: Option<i128>) -> Option<i128>
    ensures { IfSome result (λ r. IsSomeAnd one (λ a. IsSomeAnd other (λ b. r ≡ a +ℤ b))) }
{
    one?.checked_add(other?)
}

/// The number below zero that is as far from it, where it is known and has 128 bits.
fn opposite(number: Option<i128>) -> Option<i128>
    ensures { IfSome result (λ r. IsSomeAnd number (λ a. r ≡ pos 0 -ℤ a)) }
{
    0_i128.checked_sub(number?)
}

/// The product, where the number is known and the product has 128 bits.
fn multiplied(coefficient: i64, number: Option<i128>) -> Option<i128>
    ensures { IfSome result (λ r. IsSomeAnd number (λ a. r ≡ coefficient *ℤ a)) }
{
    i128::from(coefficient).checked_mul(number?)
}

/// The greater of the two, where both are known.
fn greater(one: Option<i128>, other: Option<i128>) -> Option<i128>
    ensures { IfSome result (λ r. IsSomeAnd one (λ a. IsSomeAnd other (λ b. r ≡ int_max a b))) }
{
    Some(one?.max(other?))
}

/// The lesser of the two, where both are known.
fn lesser(one: Option<i128>, other: Option<i128>) -> Option<i128>
    ensures { IfSome result (λ r. IsSomeAnd one (λ a. IsSomeAnd other (λ b. r ≡ int_min a b))) }
{
    Some(one?.min(other?))
}

impl Range {
    /// Of any number.
    pub(crate) fn unknown() -> Range
        ensures { (n : ℤ) → LiesIn result n }
    {
        Range {
            low: None,
            high: None,
        }
    }

    /// Of the index, counted from 1, of the element at a place that is counted from 0.
    pub(crate) fn index(place: usize) -> Range
        ensures { LiesIn result (pos (place + 1)) }
    {
        Range::of(place as i128 + 1)
    }

    /// Of how many there are of something.
    pub(crate) fn size(count: usize) -> Range
        ensures { LiesIn result (pos count) }
    {
        Range::of(count as i128)
    }

    /// Of the numbers from one to another.
    pub(crate) fn between(low: i64, high: i64) -> Range
        ensures { (n : ℤ) → int_le low n ≡ true → int_le n high ≡ true → LiesIn result n }
    {
        Range {
            low: Some(i128::from(low)),
            high: Some(i128::from(high)),
        }
    }

    /// Of one number.
    pub fn of(number: i128) -> Range
        ensures { LiesIn result number }
    {
        Range {
            low: Some(number),
            high: Some(number),
        }
    }

    /// Whether it has only one number.
    pub(crate) fn is_one(self) -> bool {
        match (self.low, self.high) {
            (Some(low), Some(high)) => low == high,
            _ => false,
        }
    }

    /// Whether it has fewer numbers than so many.
    pub(crate) fn has_fewer_than(self, count: usize) -> bool
        ensures { IsTrue result → IsSomeAnd self.low (λ l. IsSomeAnd self.high
            (λ h. int_lt (h +ℤ pos 1) (l +ℤ pos count) ≡ true)) }
    {
        let end = added(self.low, Range::size(count).low);
        is_below(added(self.high, Some(1)), end)
    }

    /// Of the numbers of one range being at most those of another.
    pub fn at_most(self, other: Range) -> Outlook
        ensures { (a b : ℤ) → LiesIn self a → LiesIn other b → Decides result (int_le a b) }
    {
        if is_at_most(self.high, other.low) {
            Outlook::Always
        } else if is_below(other.high, self.low) {
            Outlook::Never
        } else {
            Outlook::Open
        }
    }

    /// Of the numbers being 0 or more.
    pub(crate) fn is_natural(self) -> Outlook
        ensures { (a : ℤ) → LiesIn self a → Decides result (is_natural a) }
    {
        Range::of(0).at_most(self)
    }

    /// Of the numbers of one range being below those of another.
    pub(crate) fn below(self, other: Range) -> Outlook
        ensures { (a b : ℤ) → LiesIn self a → LiesIn other b → Decides result (int_lt a b) }
    {
        if is_below(self.high, other.low) {
            Outlook::Always
        } else if is_at_most(other.high, self.low) {
            Outlook::Never
        } else {
            Outlook::Open
        }
    }

    /// Of their being equal.
    pub fn equal(self, other: Range) -> Outlook
        ensures { (a b : ℤ) → LiesIn self a → LiesIn other b → Decides result (a =ℤ b) }
    {
        if is_below(self.high, other.low) || is_below(other.high, self.low) {
            Outlook::Never
        } else if is_at_most(self.high, other.low) && is_at_most(other.high, self.low) {
            Outlook::Always
        } else {
            Outlook::Open
        }
    }

    /// Of the numbers that are at least one of these.
    pub(crate) fn and_above(self) -> Range
        ensures { (a b : ℤ) → LiesIn self a → int_le a b ≡ true → LiesIn result b }
    {
        Range { high: None, ..self }
    }

    /// Of the numbers that are at most one of these.
    pub(crate) fn and_below(self) -> Range
        ensures { (a b : ℤ) → LiesIn self a → int_le b a ≡ true → LiesIn result b }
    {
        Range { low: None, ..self }
    }

    /// Of the numbers that are in both.
    pub fn meet(self, other: Range) -> Range
        ensures { (a : ℤ) → LiesIn self a → LiesIn other a → LiesIn result a }
    {
        Range {
            low: greater(self.low, other.low).or(self.low).or(other.low),
            high: lesser(self.high, other.high).or(self.high).or(other.high),
        }
    }

    /// Of the sums.
    pub(crate) fn plus(self, other: Range) -> Range
        ensures { (a b : ℤ) → LiesIn self a → LiesIn other b → LiesIn result (a +ℤ b) }
    {
        Range {
            low: added(self.low, other.low),
            high: added(self.high, other.high),
        }
    }

    /// Of the numbers with the other sign.
    pub(crate) fn negated(self) -> Range
        ensures { (a : ℤ) → LiesIn self a → LiesIn result (pos 0 -ℤ a) }
    {
        Range {
            low: opposite(self.high),
            high: opposite(self.low),
        }
    }

    /// Of the differences.
    pub(crate) fn minus(self, other: Range) -> Range
        ensures { (a b : ℤ) → LiesIn self a → LiesIn other b → LiesIn result (a -ℤ b) }
    {
        self.plus(other.negated())
    }

    /// Of the greater of two numbers.
    pub(crate) fn max(self, other: Range) -> Range
        ensures { (a b : ℤ) → LiesIn self a → LiesIn other b → LiesIn result (int_max a b) }
    {
        Range {
            low: greater(self.low, other.low),
            high: greater(self.high, other.high),
        }
    }

    /// Of the lesser of two numbers.
    pub(crate) fn min(self, other: Range) -> Range
        ensures { (a b : ℤ) → LiesIn self a → LiesIn other b → LiesIn result (int_min a b) }
    {
        Range {
            low: lesser(self.low, other.low),
            high: lesser(self.high, other.high),
        }
    }

    /// Of the numbers that lie between a number of the one range and one of the other.
    pub(crate) fn hull(self, other: Range) -> Range
        ensures { (a b n : ℤ) → LiesIn self a → LiesIn other b → int_le (int_min a b) n ≡ true
            → int_le n (int_max a b) ≡ true → LiesIn result n }
    {
        Range {
            low: lesser(self.low, other.low),
            high: greater(self.high, other.high),
        }
    }

    /// Of the numbers where a test holds, and of 0 where it doesn't.
    pub(crate) fn where_holds(self, test: Outlook) -> Range
        ensures { (a : ℤ) (b : Bool) → LiesIn self a → Decides test b
            → LiesIn result (cond b a (pos 0)) }
    {
        match test {
            Outlook::Always => self,
            Outlook::Never => Range::of(0),
            Outlook::Open => self.hull(Range::of(0)),
        }
    }

    /// Of the absolute values.
    pub(crate) fn abs(self) -> Range
        ensures { (a : ℤ) → LiesIn self a → LiesIn result (pos (unsigned_abs a)) }
    {
        self.max(self.negated()).max(Range::of(0))
    }

    /// Of the products with a number.
    pub(crate) fn times(self, coefficient: i64) -> Range
        ensures { (a : ℤ) → LiesIn self a → LiesIn result (coefficient *ℤ a) }
    {
        let low = multiplied(coefficient, self.low);
        let high = multiplied(coefficient, self.high);
        if coefficient >= 0 {
            Range { low, high }
        } else {
            Range {
                low: high,
                high: low,
            }
        }
    }
}
