//! Sets of numbers from 0 to 63, each as the bits of a word: bit n is 1 where n is in the set. A
//! question about such sets, or an operation on two of them, takes a few instructions. Only building
//! a set from a list or from ranges, and listing its ranges, takes a loop.

ghost use Rattle.std.specs.Prelude.{◌≡◌, ◌<◌, ◌≤◌, ◌+◌, ℤ, ◌≤ℤ◌, ◌-ℤ◌, ◌↔◌, ◌&&◌, ◌||◌, true, pos, IsTrue, IfNone, IfSome};
ghost use Rattle.std.specs.FinSet as set;
ghost use Rattle.std.specs.List.{list_any};
ghost use Rattle.std.specs.Ordering.{int_eq};
ghost use Rattle.fz_base.specs.Bits.{has_bit, numbers_of_bits};
ghost use Rattle.fz_base.specs.Ranges.{lowest, AreInOrder, EndUpTo, covers, is_between, keeps};
ghost use Rattle.arrayvec.specs.ArrayVec.{array_vec_len};

use crate::ranges::{Range, Rule, touches};
use arrayvec::ArrayVec;

/// The most ranges that `spread` has room for. A word has at most half as many, since there is a
/// gap between each two.
pub const PLACES: usize = 64;

/// The greatest number that a word can hold.
const LAST: i64 = 63;

/// Whether the number is in the set.
#[inline(always)]
pub fn has(bits: u64, number: i64) -> bool
    ensures { result ≡ has_bit bits number }
{
    if number < 0 || number > LAST {
        return false;
    }
    (bits >> number as u64) & 1 == 1
}

/// The set with one more number, or none where the number is not from 0 to 63.
#[inline(always)]
fn with(bits: u64, number: i64) -> Option<u64>
    ensures { IfSome result (λ b. (x : ℤ) → has_bit b x ≡ (has_bit bits x || int_eq x number)) }
{
    if number < 0 || number > LAST {
        return None;
    }
    Some(bits | (1 << number as u64))
}

/// The set of the listed numbers, or none where one of them is not from 0 to 63.
pub fn listed(numbers: &[i64]) -> Option<u64>
    ensures { IfSome result (λ b. (x : ℤ) → has_bit b x ≡ list_any (int_eq x) numbers.now) }
{
    let mut bits = 0;
    for number in numbers {
        bits = with(bits, *number)?;
    }
    Some(bits)
}

/// Those of the numbers from `lo` to `hi`, both included, that are from 0 to 63.
fn cut(lo: i64, hi: i64) -> u64
    ensures { (x : ℤ) → has_bit result x ≡ (is_between (pos 0) (pos 63) x && is_between lo hi x) }
{
    let first = lo.max(0);
    let last = hi.min(LAST);
    if last < first {
        return 0;
    }
    (u64::MAX >> (LAST - last) as u64) & (u64::MAX << first as u64)
}

/// The numbers from `lo` to `hi`, both included, or none where one of them is not from 0 to 63.
pub fn between(lo: i64, hi: i64) -> Option<u64>
    ensures { IfSome result (λ b. (x : ℤ) → has_bit b x ≡ is_between lo hi x) }
{
    if lo <= hi && (lo < 0 || hi > LAST) {
        return None;
    }
    Some(cut(lo, hi))
}

/// The numbers that ranges cover, or none where one of them is not from 0 to 63.
#[tactic(auto, using(crate::proofs::Covers::covers_more))]
pub fn of_ranges(ranges: &[Range]) -> Option<u64>
    ensures { IfSome result (λ b. (x : ℤ) → has_bit b x ≡ covers ranges.now x) }
{
    let mut bits = 0;
    for range in ranges {
        bits = combine(bits, between(range.lo, range.hi)?, Rule::Union);
    }
    Some(bits)
}

/// How many numbers the set has.
#[inline(always)]
pub fn count(bits: u64) -> u32
    ensures { result ≡ set.len (numbers_of_bits bits) }
{
    bits.count_ones()
}

/// The number of the set, where it has exactly one.
pub fn only(bits: u64) -> Option<i64>
    ensures found { IfSome result (λ n. (x : ℤ) → (has_bit bits x ≡ true) ↔ (x ≡ n)) }
    ensures none { IfNone result ((n : ℤ) → ((x : ℤ) → (has_bit bits x ≡ true) ↔ (x ≡ n)) → ⊥) }
{
    if bits == 0 {
        return None;
    }
    let lowest = bits.trailing_zeros();
    if bits == 1 << lowest {
        Some(i64::from(lowest))
    } else {
        None
    }
}

/// Whether each number of the first set is in the second.
#[inline(always)]
#[tactic(auto, using(crate::proofs::Words::covered_words, crate::proofs::Words::words_covered))]
pub fn are_covered(a: u64, b: u64) -> bool
    ensures { IsTrue result ↔ ((x : ℤ) → has_bit a x ≡ true → has_bit b x ≡ true) }
{
    a & !b == 0
}

/// Whether both have the same numbers.
#[inline(always)]
#[tactic(auto, using(crate::proofs::Words::same_words))]
pub fn are_same(a: u64, b: u64) -> bool
    ensures { IsTrue result ↔ ((x : ℤ) → has_bit a x ≡ has_bit b x) }
{
    a == b
}

/// Whether all the numbers are from `lo` to `hi`.
#[inline(always)]
#[tactic(auto, using(crate::proofs::Words::within_cut))]
pub fn lie_within(bits: u64, lo: i64, hi: i64) -> bool
    ensures { IsTrue result ↔ ((x : ℤ) → has_bit bits x ≡ true → (lo ≤ℤ x) × (x ≤ℤ hi)) }
{
    are_covered(bits, cut(lo, hi))
}

/// The result of the set operation on two sets.
#[inline(always)]
#[tactic(auto, using(crate::proofs::Words::operations))]
pub fn combine(a: u64, b: u64, rule: Rule) -> u64
    ensures { (x : ℤ) → has_bit result x ≡ keeps rule (has_bit a x) (has_bit b x) }
{
    match rule {
        Rule::Union => a | b,
        Rule::Intersect => a & b,
        Rule::Minus => a & !b,
        Rule::Symdiff => a ^ b,
    }
}

/// Adds a number above all the ranges, where there is room for one more range: like `push_range` of
/// ranges.rt, but into an array, so it never asks for memory.
fn push_number(ranges: &mut ArrayVec<Range, PLACES>, number: i64)
    requires room { array_vec_len ranges.old < 64 }
    requires in_order { AreInOrder lowest ranges.old.items }
    requires below { EndUpTo number ranges.old.items }
    ensures in_order { AreInOrder lowest ranges.new.items }
    ensures ends { EndUpTo number ranges.new.items }
    ensures added { (x : ℤ) → covers ranges.new.items x
        ≡ (covers ranges.old.items x || int_eq x number) }
    ensures len { array_vec_len ranges.new ≤ array_vec_len ranges.old + 1 }
{
    match ranges.pop() {
        None => ranges.push(Range {
            lo: number,
            hi: number,
        }),
        Some(last) => {
            if touches(last.hi, number) {
                ranges.push(Range {
                    lo: last.lo,
                    hi: number,
                });
            } else {
                ranges.push(last);
                ranges.push(Range {
                    lo: number,
                    hi: number,
                });
            }
        }
    }
}

/// The ranges of the numbers of the set, in order.
pub fn spread(bits: u64) -> ArrayVec<Range, PLACES>
    ensures in_order { AreInOrder lowest result.items }
    ensures same { (x : ℤ) → covers result.items x ≡ has_bit bits x }
{
    let mut ranges = ArrayVec::new();
    let mut rest = bits;
    'spreading: while rest != 0 {
        let lowest = rest.trailing_zeros();
        push_number(&mut ranges, i64::from(lowest));
        rest &= !(1 << lowest);
    }
    ranges
}
