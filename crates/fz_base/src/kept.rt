//! How the numbers of a set are stored. Most sets have numbers from 0 to 63 alone. These are stored
//! as the bits of a word inside the set itself, so reading them needs no second access to memory.
//! The numbers of other sets are stored as ranges in a box.

ghost use Rattle.std.specs.Prelude.{◌≡◌, ℤ, ◌≤◌, ◌^◌, ◌≤ℤ◌, ◌↔◌, true, IsTrue, IfNone, IfOk, IfSome};
ghost use Rattle.std.specs.FinSet as set;
ghost use Rattle.std.specs.List.{list_any};
ghost use Rattle.std.specs.Ordering.{int_eq};
ghost use Rattle.fz_base.specs.Keeping.{has, held_ranges, set_of, AreKept};
ghost use Rattle.fz_base.specs.Ranges.{lowest, AreInOrder, covers, is_between, keeps};

use crate::bits::{self, PLACES};
use crate::ranges::{self, Range, Rule};
use arrayvec::ArrayVec;
use std::alloc::{AllocError, Global};

/// The numbers of a set: the bits of a word, or ranges.
#[derive(Debug, Drop)]
pub enum Numbers {
    Low(u64),
    Ranges(Box<Vec<Range>>),
}

/// The ranges of numbers: those of a word, listed in an array, or those that are stored.
#[derive(Drop)]
enum Held<'s> {
    Spread(ArrayVec<Range, PLACES>),
    Kept(&'s [Range]),
}

impl Held<'_> {
    fn ranges(&self) -> &[Range]
        ensures { result.now ≡ held_ranges self.now }
    {
        match self {
            Held::Spread(ranges) => ranges.as_slice(),
            Held::Kept(ranges) => ranges,
        }
    }
}

/// Stores ranges in order in a box.
fn boxed(alloc: Global, ranges: Vec<Range>) -> Result<Numbers, AllocError>
    requires in_order { AreInOrder lowest ranges.items }
    ensures kept { IfOk result AreKept }
    ensures same { IfOk result (λ n. (x : ℤ) → has n x ≡ covers ranges.items x) }
{
    Ok(Numbers::Ranges(Box::new(alloc, ranges)?))
}

/// The numbers that ranges in order cover, as a word where all are from 0 to 63.
fn of_ranges(alloc: Global, ranges: Vec<Range>) -> Result<Numbers, AllocError>
    requires in_order { AreInOrder lowest ranges.items }
    ensures kept { IfOk result AreKept }
    ensures same { IfOk result (λ n. (x : ℤ) → has n x ≡ covers ranges.items x) }
{
    match bits::of_ranges(&ranges) {
        Some(bits) => Ok(Numbers::Low(bits)),
        None => boxed(alloc, ranges),
    }
}

/// The numbers from `lo` to `hi`, both included.
pub fn between(alloc: Global, lo: i64, hi: i64) -> Result<Numbers, AllocError>
    ensures kept { IfOk result AreKept }
    ensures same { IfOk result (λ n. (x : ℤ) → has n x ≡ is_between lo hi x) }
{
    match bits::between(lo, hi) {
        Some(bits) => Ok(Numbers::Low(bits)),
        None => boxed(alloc, ranges::between(alloc, lo, hi)?),
    }
}

/// The listed numbers, which come in any order and may repeat.
pub fn listed(alloc: Global, numbers: &[i64]) -> Result<Numbers, AllocError>
    ensures kept { IfOk result AreKept }
    ensures same { IfOk result (λ n. (x : ℤ) → has n x ≡ list_any (int_eq x) numbers.now) }
{
    match bits::listed(numbers) {
        Some(bits) => Ok(Numbers::Low(bits)),
        None => sorted(alloc, numbers),
    }
}

/// The listed numbers, which are sorted once.
#[tactic(auto, using(crate::proofs::SetRelations::sorted_listed))]
fn sorted(alloc: Global, numbers: &[i64]) -> Result<Numbers, AllocError>
    ensures kept { IfOk result AreKept }
    ensures same { IfOk result (λ n. (x : ℤ) → has n x ≡ list_any (int_eq x) numbers.now) }
{
    let mut sorted = Vec::from_slice(alloc, numbers)?;
    sorted.sort_unstable();
    let ranges = ranges::gather(alloc, &sorted)?;
    Ok(boxed(alloc, ranges)?)
}

impl Numbers {
    /// The ranges of the numbers.
    fn held(&self) -> Held<'_>
        requires kept { AreKept self.now }
        ensures in_order { AreInOrder lowest (held_ranges result) }
        ensures same { (x : ℤ) → covers (held_ranges result) x ≡ has self.now x }
    {
        match self {
            Numbers::Low(bits) => Held::Spread(bits::spread(*bits)),
            Numbers::Ranges(ranges) => Held::Kept(ranges),
        }
    }

    /// The ranges of the numbers, in a list of their own.
    pub fn ranges(&self, alloc: Global) -> Result<Vec<Range>, AllocError>
        requires kept { AreKept self.now }
        ensures in_order { IfOk result (λ v. AreInOrder lowest v.items) }
        ensures same { IfOk result (λ v. (x : ℤ) → covers v.items x ≡ has self.now x) }
    {
        let held = self.held();
        Vec::from_slice(alloc, held.ranges())
    }

    /// Whether the number is one of them.
    #[inline]
    pub fn contain(&self, number: i64) -> bool
        requires kept { AreKept self.now }
        ensures { result ≡ has self.now number }
    {
        match self {
            Numbers::Low(bits) => bits::has(*bits, number),
            Numbers::Ranges(own) => ranges::is_covered(own, number),
        }
    }

    /// How many there are.
    #[inline]
    pub fn count(&self) -> u128
        requires kept { AreKept self.now }
        ensures exact { result ≡ set.len (set_of self.now) }
        ensures bound { result ≤ 2 ^ 64 }
    {
        match self {
            Numbers::Low(bits) => u128::from(bits::count(*bits)),
            Numbers::Ranges(own) => ranges::count(own),
        }
    }

    /// The number, where there is exactly one.
    #[inline]
    pub fn only(&self) -> Option<i64>
        requires kept { AreKept self.now }
        ensures found { IfSome result (λ n. (x : ℤ) → (has self.now x ≡ true) ↔ (x ≡ n)) }
        ensures none { IfNone result ((n : ℤ) → ((x : ℤ) → (has self.now x ≡ true) ↔ (x ≡ n)) → ⊥) }
    {
        match self {
            Numbers::Low(bits) => bits::only(*bits),
            Numbers::Ranges(own) => ranges::only(own),
        }
    }

    /// Whether each of them is one of the others.
    #[inline]
    pub fn are_covered(&self, others: &Numbers) -> bool
        requires kept { AreKept self.now }
        requires others { AreKept others.now }
        ensures { IsTrue result ↔ ((x : ℤ) → has self.now x ≡ true → has others.now x ≡ true) }
    {
        match (self, others) {
            (Numbers::Low(a), Numbers::Low(b)) => bits::are_covered(*a, *b),
            _ => self.ranges_are_covered(others),
        }
    }

    fn ranges_are_covered(&self, others: &Numbers) -> bool
        requires kept { AreKept self.now }
        requires others { AreKept others.now }
        ensures { IsTrue result ↔ ((x : ℤ) → has self.now x ≡ true → has others.now x ≡ true) }
    {
        let a = self.held();
        let b = others.held();
        ranges::are_covered(a.ranges(), b.ranges())
    }

    /// Whether both are the same numbers.
    #[inline]
    pub fn are_same(&self, others: &Numbers) -> bool
        requires kept { AreKept self.now }
        requires others { AreKept others.now }
        ensures { IsTrue result ↔ ((x : ℤ) → has self.now x ≡ has others.now x) }
    {
        match (self, others) {
            (Numbers::Low(a), Numbers::Low(b)) => bits::are_same(*a, *b),
            _ => self.ranges_are_same(others),
        }
    }

    fn ranges_are_same(&self, others: &Numbers) -> bool
        requires kept { AreKept self.now }
        requires others { AreKept others.now }
        ensures { IsTrue result ↔ ((x : ℤ) → has self.now x ≡ has others.now x) }
    {
        let a = self.held();
        let b = others.held();
        ranges::are_same(a.ranges(), b.ranges())
    }

    /// Whether all of them are from `lo` to `hi`.
    #[inline]
    pub fn lie_within(&self, lo: i64, hi: i64) -> bool
        requires kept { AreKept self.now }
        ensures { IsTrue result ↔ ((x : ℤ) → has self.now x ≡ true → (lo ≤ℤ x) × (x ≤ℤ hi)) }
    {
        match self {
            Numbers::Low(bits) => bits::lie_within(*bits, lo, hi),
            Numbers::Ranges(own) => ranges::lie_within(own, lo, hi),
        }
    }

    /// Whether they are the result of the set operation on two others.
    #[inline(always)]
    pub fn are_kept(&self, a: &Numbers, b: &Numbers, rule: Rule) -> bool
        requires kept { AreKept self.now }
        requires a { AreKept a.now }
        requires b { AreKept b.now }
        ensures { IsTrue result ↔ ((x : ℤ)
            → has self.now x ≡ keeps rule (has a.now x) (has b.now x)) }
    {
        match (self, a, b) {
            (Numbers::Low(c), Numbers::Low(a), Numbers::Low(b)) => {
                bits::are_same(*c, bits::combine(*a, *b, rule))
            }
            _ => self.ranges_are_kept(a, b, rule),
        }
    }

    fn ranges_are_kept(&self, a: &Numbers, b: &Numbers, rule: Rule) -> bool
        requires kept { AreKept self.now }
        requires a { AreKept a.now }
        requires b { AreKept b.now }
        ensures { IsTrue result ↔ ((x : ℤ)
            → has self.now x ≡ keeps rule (has a.now x) (has b.now x)) }
    {
        let a = a.held();
        let b = b.held();
        let c = self.held();
        ranges::is_kept(a.ranges(), b.ranges(), c.ranges(), rule)
    }

    /// The result of the set operation on these and others.
    #[inline]
    pub fn combine(
        &self,
        alloc: Global,
        others: &Numbers,
        rule: Rule,
    ) -> Result<Numbers, AllocError>
        requires kept { AreKept self.now }
        requires others { AreKept others.now }
        ensures kept { IfOk result AreKept }
        ensures same { IfOk result (λ n. (x : ℤ)
            → has n x ≡ keeps rule (has self.now x) (has others.now x)) }
    {
        match (self, others) {
            (Numbers::Low(a), Numbers::Low(b)) => Ok(Numbers::Low(bits::combine(*a, *b, rule))),
            _ => self.combine_ranges(alloc, others, rule),
        }
    }

    fn combine_ranges(
        &self,
        alloc: Global,
        others: &Numbers,
        rule: Rule,
    ) -> Result<Numbers, AllocError>
        requires kept { AreKept self.now }
        requires others { AreKept others.now }
        ensures kept { IfOk result AreKept }
        ensures same { IfOk result (λ n. (x : ℤ)
            → has n x ≡ keeps rule (has self.now x) (has others.now x)) }
    {
        let a = self.held();
        let b = others.held();
        of_ranges(alloc, ranges::combine(alloc, a.ranges(), b.ranges(), rule)?)
    }

    /// A copy of the numbers.
    pub fn copy(&self, alloc: Global) -> Result<Numbers, AllocError>
        requires kept { AreKept self.now }
        ensures kept { IfOk result AreKept }
        ensures same { IfOk result (λ n. set_of n ≡ set_of self.now) }
    {
        match self {
            Numbers::Low(bits) => Ok(Numbers::Low(*bits)),
            Numbers::Ranges(ranges) => {
                let copy = Vec::from_slice(alloc, ranges)?;
                Ok(Numbers::Ranges(Box::new(alloc, copy)?))
            }
        }
    }
}
