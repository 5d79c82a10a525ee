//! Finite sets of integers.

ghost use Rattle.std.specs.Prelude.{◌≡◌, ◌≤◌, ◌^◌, ◌↔◌, ℤ, IsTrue, IfNone, IfOk, IfSome};
ghost use Rattle.std.specs.FinSet as set;
ghost use Rattle.fz_base.specs.Keeping.{combined, has, set_of, AreKept};
ghost use Rattle.fz_base.specs.Ranges.{lowest, AreInOrder, covers};
ghost use Rattle.fz_base.specs.Sets.{numbers_between, symmetric_difference};
ghost use Rattle.fz_base.specs.Elements.{LiesWithin, Has64Bits, IsOnly};

use crate::kept::{self, Numbers};
use crate::ranges::{Range, Rule};
use std::alloc::{AllocError, Global};
use std::marker::Model;
use thiserror::Error;

/// Why a set could not be made.
#[derive(Clone, Copy, Debug, PartialEq, Eq, Error)]
pub enum SetError {
    #[error("out of memory")]
    Memory,
}

impl From<AllocError> for SetError {
    fn from(_error: AllocError) -> Self {
        SetError::Memory
    }
}

/// A finite set of integers of 64 bits, of any size. It takes 16 bytes itself, and no other memory
/// where all its numbers are from 0 to 63.
#[derive(Debug, Drop)]
pub struct IntSet {
    numbers: Numbers,
}

impl Model for IntSet {
    ghost use Rattle.std.specs.Ordering.{int_cmp};
    ghost use Rattle.std.specs.FinSet.{FinSet, code};
    ghost use Rattle.std.specs.Coded.{coded_ℤ};

    ghost Value = { FinSet int_cmp };

    ghost coded = { code coded_ℤ };

    ghost use Rattle.fz_base.specs.Keeping.{set_of, AreKept};

    ghost view = { λ s. set_of s.numbers };

    ghost invariant = { λ s. AreKept s.numbers };
}

/// The set of numbers that are stored in either way.
#[inline]
fn set_of(numbers: Numbers) -> IntSet
    requires kept { AreKept numbers }
    ensures { result ≡ set_of numbers }
{
    IntSet { numbers }
}

impl IntSet {
    /// The numbers as they are stored.
    #[inline(always)]
    #[tactic(auto, using(crate::proofs::SetRelations::seen))]
    fn kept(&self) -> &Numbers
        ensures kept { AreKept result.now }
        ensures same { set_of result.now ≡ self.now }
        ensures seen { (x : ℤ) → has result.now x ≡ set.contains self.now x }
    {
        &self.numbers
    }

    /// Whether the set is the result of the operation on two others.
    #[inline(always)]
    fn is_combined(&self, a: &IntSet, b: &IntSet, rule: Rule) -> bool
        ensures { IsTrue result ↔ (self.now ≡ combined rule a.now b.now) }
    {
        self.kept().are_kept(a.kept(), b.kept(), rule)
    }

    /// The result of the operation on this set and another.
    #[inline(always)]
    fn combined(&self, alloc: Global, other: &IntSet, rule: Rule) -> Result<IntSet, SetError>
        ensures { IfOk result (λ s. s ≡ combined rule self.now other.now) }
    {
        Ok(set_of(self.kept().combine(alloc, other.kept(), rule)?))
    }
}

/// Making sets. Each of these calls refuses only where memory runs out.
impl IntSet {
    /// All the numbers from `lo` to `hi`, both included; none where `lo` is above `hi`.
    pub fn range(alloc: Global, lo: i64, hi: i64) -> Result<IntSet, SetError>
        ensures { IfOk result (λ s. s ≡ numbers_between lo hi) }
    {
        Ok(set_of(kept::between(alloc, lo, hi)?))
    }

    /// The listed numbers, which come in any order and may repeat. Unless all are from 0 to 63 they
    /// are sorted, once.
    #[tactic(auto, using(crate::proofs::SetRelations::listed_made))]
    pub fn list(alloc: Global, numbers: &[i64]) -> Result<IntSet, SetError>
        ensures { IfOk result (λ s. s ≡ set.from_list numbers.now) }
    {
        Ok(set_of(kept::listed(alloc, numbers)?))
    }
}

/// Questions about sets. These calls take no memory and always succeed. Where the sets have numbers
/// from 0 to 63 alone, each takes a few instructions. Otherwise membership takes a binary search
/// over the ranges, and a question about two sets one pass over the ranges of both.
impl IntSet {
    /// Whether the number is in the set.
    #[inline]
    pub fn contains(&self, number: i64) -> bool
        ensures { result ≡ set.contains self.now number }
    {
        self.kept().contain(number)
    }

    /// How many numbers the set has: at most 2^64, where it has all.
    #[inline]
    pub fn len(&self) -> u128
        ensures exact { result ≡ set.len self.now }
        ensures bound { result ≤ 2 ^ 64 }
    {
        self.kept().count()
    }

    /// The number of the set, where it has exactly one.
    #[inline]
    pub fn only(&self) -> Option<i64>
        ensures found { IfSome result (λ n. IsOnly n self.now) }
        ensures none { IfNone result ((n : ℤ) → IsOnly n self.now → ⊥) }
    {
        self.kept().only()
    }

    /// The numbers as ranges in order, with a gap between each two. This call takes memory.
    ///
    /// # Errors
    ///
    /// Out of memory.
    pub fn ranges(&self, alloc: Global) -> Result<Vec<Range>, AllocError>
        ensures in_order { IfOk result (λ v. AreInOrder lowest v.items) }
        ensures same { IfOk result (λ v. (x : ℤ) → covers v.items x ≡ set.contains self.now x) }
    {
        self.kept().ranges(alloc)
    }

    /// Whether each number of this set is in the other.
    #[inline]
    pub fn is_subset(&self, other: &IntSet) -> bool
        ensures { result ≡ set.is_subset self.now other.now }
    {
        self.kept().are_covered(other.kept())
    }

    /// Whether the two sets have the same numbers.
    #[inline]
    pub fn equals(&self, other: &IntSet) -> bool
        ensures { IsTrue result ↔ (self.now ≡ other.now) }
    {
        self.kept().are_same(other.kept())
    }

    /// Whether each number of the set is from `lo` to `hi`, both included.
    #[inline]
    #[tactic(auto, using(crate::proofs::SetRelations::lies_within_is))]
    pub fn within(&self, lo: i64, hi: i64) -> bool
        ensures exact { IsTrue result ↔ LiesWithin lo hi self.now }

        // whatever `lo` and `hi` are
        ensures fits { Has64Bits self.now }
    {
        self.kept().lie_within(lo, hi)
    }
}

/// Whether a set is the result of an operation on two others: a few instructions, or one pass over
/// the ranges of the three. These calls take no memory and always succeed.
impl IntSet {
    /// Whether this set is what is in one of the two or in both.
    #[inline]
    pub fn is_union(&self, a: &IntSet, b: &IntSet) -> bool
        ensures { IsTrue result ↔ (self.now ≡ set.union a.now b.now) }
    {
        self.is_combined(a, b, Rule::Union)
    }

    /// Whether this set is what is in both.
    #[inline]
    pub fn is_intersection(&self, a: &IntSet, b: &IntSet) -> bool
        ensures { IsTrue result ↔ (self.now ≡ set.intersection a.now b.now) }
    {
        self.is_combined(a, b, Rule::Intersect)
    }

    /// Whether this set is what is in the first and not in the second.
    #[inline]
    pub fn is_difference(&self, a: &IntSet, b: &IntSet) -> bool
        ensures { IsTrue result ↔ (self.now ≡ set.difference a.now b.now) }
    {
        self.is_combined(a, b, Rule::Minus)
    }

    /// Whether this set is what is in exactly one of the two.
    #[inline]
    pub fn is_symmetric_difference(&self, a: &IntSet, b: &IntSet) -> bool
        ensures { IsTrue result ↔ (self.now ≡ symmetric_difference a.now b.now) }
    {
        self.is_combined(a, b, Rule::Symdiff)
    }
}

/// Combining and copying sets: a few instructions, or one pass over the ranges of the operands.
/// Each of these calls refuses only where memory runs out.
impl IntSet {
    /// What is in this set, in the other or in both.
    pub fn union(&self, alloc: Global, other: &IntSet) -> Result<IntSet, SetError>
        ensures { IfOk result (λ s. s ≡ set.union self.now other.now) }
    {
        self.combined(alloc, other, Rule::Union)
    }

    /// What is in both sets.
    pub fn intersect(&self, alloc: Global, other: &IntSet) -> Result<IntSet, SetError>
        ensures { IfOk result (λ s. s ≡ set.intersection self.now other.now) }
    {
        self.combined(alloc, other, Rule::Intersect)
    }

    /// What is in this set and not in the other.
    pub fn minus(&self, alloc: Global, other: &IntSet) -> Result<IntSet, SetError>
        ensures { IfOk result (λ s. s ≡ set.difference self.now other.now) }
    {
        self.combined(alloc, other, Rule::Minus)
    }

    /// What is in exactly one of the two sets.
    pub fn symdiff(&self, alloc: Global, other: &IntSet) -> Result<IntSet, SetError>
        ensures { IfOk result (λ s. s ≡ symmetric_difference self.now other.now) }
    {
        self.combined(alloc, other, Rule::Symdiff)
    }

    /// A set with the same numbers.
    pub fn copy(&self, alloc: Global) -> Result<IntSet, AllocError>
        ensures { IfOk result (λ s. s ≡ self.now) }
    {
        Ok(set_of(self.kept().copy(alloc)?))
    }
}
