//! Ranges of integers in order, as sets with numbers outside 0 to 63 are stored. Each function goes
//! over its ranges at most once. A set operation walks two lists side by side, one stretch of
//! numbers after another on which the answer doesn't change. Whether one set is a subset of another,
//! and whether two are equal, is found by comparing whole ranges.

ghost use Rattle.std.specs.Prelude.{◌≡◌, ◌≤◌, ◌^◌, ℤ, ◌≤ℤ◌, ◌<ℤ◌, ◌+◌, ◌↔◌, ◌||◌, false, true, IsTrue, IfNone, IfOk, IfSome, OnOk, pos, ◌+ℤ◌, ◌-ℤ◌, ◌&&◌};
ghost use Rattle.std.specs.List.{sum_by, list_any};
ghost use Rattle.std.specs.Ordering.{int_cmp, int_eq};
ghost use Rattle.std.specs.List.Sorted.{IsSorted};
ghost use Rattle.fz_base.specs.Sets.{count_between};
ghost use Rattle.fz_base.specs.Ranges.{lowest, AreInOrder, CoversOnly, EndUpTo, LiesIn, ReachesTo, covers, is_between, keeps};

use std::alloc::{AllocError, Global};

/// The numbers from `lo` to `hi`, both included.
#[derive(Clone, Copy, Debug, Default)]
pub struct Range {
    pub lo: i64,
    pub hi: i64,
}

/// The operations on two sets. Each is a rule for which numbers are in the result.
#[derive(Clone, Copy)]
pub enum Rule {
    Union,
    Intersect,
    Minus,
    Symdiff,
}

fn keeps(rule: Rule, a: bool, b: bool) -> bool
    ensures { result ≡ keeps rule a b }
{
    match rule {
        Rule::Union => a || b,
        Rule::Intersect => a && b,
        Rule::Minus => a && !b,
        Rule::Symdiff => a != b,
    }
}

/// Whether `at` is in a range, and the last number up to which the answer stays the same.
fn stretch(ranges: &[Range], at: i64) -> (bool, i64)
    requires in_order { AreInOrder lowest ranges.now }
    requires ahead { ReachesTo at ranges.now }
    ensures goes_on { at ≤ℤ result.1 }
    ensures ahead { ReachesTo result.1 ranges.now }
    ensures alike { (x : ℤ) → at ≤ℤ x → x ≤ℤ result.1 → covers ranges.now x ≡ result.0 }
{
    match ranges {
        [] => (false, i64::MAX),
        [first, ..] => {
            if first.lo <= at {
                (true, first.hi)
            } else {
                (false, first.lo - 1)
            }
        }
    }
}

/// What `stretch` gives of two lists, up to the nearer end.
fn shared_stretch(a: &[Range], b: &[Range], at: i64) -> (bool, bool, i64)
    requires a_in_order { AreInOrder lowest a.now }
    requires b_in_order { AreInOrder lowest b.now }
    requires a_ahead { ReachesTo at a.now }
    requires b_ahead { ReachesTo at b.now }
    ensures goes_on { at ≤ℤ result.2 }
    ensures a_ahead { ReachesTo result.2 a.now }
    ensures b_ahead { ReachesTo result.2 b.now }
    ensures a_alike { (x : ℤ) → at ≤ℤ x → x ≤ℤ result.2 → covers a.now x ≡ result.0 }
    ensures b_alike { (x : ℤ) → at ≤ℤ x → x ≤ℤ result.2 → covers b.now x ≡ result.1 }
{
    let (in_a, end_a) = stretch(a, at);
    let (in_b, end_b) = stretch(b, at);
    if end_a < end_b {
        (in_a, in_b, end_a)
    } else {
        (in_a, in_b, end_b)
    }
}

/// The ranges that reach past `end`, where the first one, if there is one, reaches to `end`.
fn past(ranges: &[Range], end: i64) -> &[Range]
    requires in_order { AreInOrder lowest ranges.now }
    requires ahead { ReachesTo end ranges.now }
    ensures in_order { AreInOrder lowest result.now }
    ensures ahead { ReachesTo (end +ℤ pos 1) result.now }
    ensures alike { (x : ℤ) → end <ℤ x → covers result.now x ≡ covers ranges.now x }
{
    match ranges {
        [first, others @ ..] if first.hi == end => others,
        _ => ranges,
    }
}

/// Whether no number is between `end` and `lo`.
pub fn touches(end: i64, lo: i64) -> bool
    ensures { IsTrue result ↔ (lo ≤ℤ (end +ℤ pos 1)) }
{
    lo <= end || lo == end + 1
}

/// Adds the numbers from `lo` to `hi` at the end of the ranges.
fn push_range(ranges: &mut Vec<Range>, lo: i64, hi: i64) -> Result<(), AllocError>
    requires in_order { AreInOrder lowest ranges.old.items }
    requires below { EndUpTo lo ranges.old.items }
    requires some { lo ≤ℤ hi }
    ensures in_order { OnOk result (AreInOrder lowest ranges.new.items) }
    ensures ends { OnOk result (EndUpTo hi ranges.new.items) }
    ensures added { OnOk result ((x : ℤ)
        → covers ranges.new.items x ≡ (covers ranges.old.items x || is_between lo hi x)) }
{
    match ranges.pop() {
        None => ranges.push(Range { lo, hi })?,
        Some(last) => {
            if touches(last.hi, lo) {
                ranges.push(Range { lo: last.lo, hi })?;
            } else {
                ranges.push(last)?;
                ranges.push(Range { lo, hi })?;
            }
        }
    }
    Ok(())
}

/// The number that ranges in order have, where there is exactly one.
pub fn only(ranges: &[Range]) -> Option<i64>
    requires in_order { AreInOrder lowest ranges.now }
    ensures found { IfSome result (λ n. CoversOnly n ranges.now) }
    ensures none { IfNone result ((n : ℤ) → CoversOnly n ranges.now → ⊥) }
{
    match ranges {
        [range] if range.lo == range.hi => Some(range.lo),
        _ => None,
    }
}

/// The ranges of the numbers from `lo` to `hi`: one, or none where `lo` is above `hi`.
pub fn between(alloc: Global, lo: i64, hi: i64) -> Result<Vec<Range>, AllocError>
    ensures in_order { IfOk result (λ v. AreInOrder lowest v.items) }
    ensures same { IfOk result (λ v. (x : ℤ) → covers v.items x ≡ is_between lo hi x) }
{
    let mut ranges = Vec::new(alloc);
    if hi < lo {
        return Ok(ranges);
    }
    push_range(&mut ranges, lo, hi)?;
    Ok(ranges)
}

/// Adds the numbers from `lo` to `hi` at the end of the ranges, if they are wanted.
#[tactic(auto, using(crate::proofs::Covers::ends_further, std::proofs::lemmas::Int::ints))]
fn push_if(ranges: &mut Vec<Range>, lo: i64, hi: i64, wanted: bool) -> Result<(), AllocError>
    requires in_order { AreInOrder lowest ranges.old.items }
    requires below { EndUpTo (lo -ℤ pos 1) ranges.old.items }
    requires some { lo ≤ℤ hi }
    ensures in_order { OnOk result (AreInOrder lowest ranges.new.items) }
    ensures ends { OnOk result (EndUpTo hi ranges.new.items) }
    ensures added { OnOk result ((x : ℤ) → covers ranges.new.items x
        ≡ (covers ranges.old.items x || (wanted && is_between lo hi x))) }
{
    if wanted {
        push_range(ranges, lo, hi)?;
    }
    Ok(())
}

/// The ranges of the result of the set operation on two sets.
pub fn combine(
    alloc: Global,
    a: &[Range],
    b: &[Range],
    rule: Rule,
) -> Result<Vec<Range>, AllocError>
    requires a_in_order { AreInOrder lowest a.now }
    requires b_in_order { AreInOrder lowest b.now }
    ensures in_order { IfOk result (λ v. AreInOrder lowest v.items) }
    ensures kept { IfOk result (λ v. (x : ℤ)
        → covers v.items x ≡ keeps rule (covers a.now x) (covers b.now x)) }
{
    let mut out = Vec::new(alloc);
    let mut at = i64::MIN;
    let mut rest_a = a;
    let mut rest_b = b;
    'walk: loop {
        let (in_a, in_b, end) = shared_stretch(rest_a, rest_b, at);
        let wanted = keeps(rule, in_a, in_b);
        push_if(&mut out, at, end, wanted)?;
        if end == i64::MAX {
            return Ok(out);
        }
        rest_a = past(rest_a, end);
        rest_b = past(rest_b, end);
        at = end + 1;
    }
}

/// The ranges that reach to a number or past it.
fn reaching(ranges: &[Range], at: i64) -> &[Range]
    requires { AreInOrder lowest ranges.now }
    ensures in_order { AreInOrder lowest result.now }
    ensures ahead { ReachesTo at result.now }
    ensures alike { (x : ℤ) → at ≤ℤ x → covers result.now x ≡ covers ranges.now x }
{
    let mut rest = ranges;
    'passing: loop {
        match rest {
            [] => return rest,
            [first, others @ ..] => {
                if at <= first.hi {
                    return rest;
                }
                rest = others;
            }
        }
    }
}

/// Whether all numbers from `lo` to `hi` are in ranges of which the first reaches to `lo`. As there
/// are gaps between the ranges, that is so only where the first one has all these numbers.
fn have_all(ranges: &[Range], lo: i64, hi: i64) -> bool
    requires in_order { AreInOrder lowest ranges.now }
    requires ahead { ReachesTo lo ranges.now }
    requires some { lo ≤ℤ hi }
    ensures all { result ≡ true → (x : ℤ) → lo ≤ℤ x → x ≤ℤ hi → covers ranges.now x ≡ true }
    ensures missing { result ≡ false → ((x : ℤ) → lo ≤ℤ x → x ≤ℤ hi → covers ranges.now x ≡ true)
        → ⊥ }
{
    match ranges {
        [] => false,
        [first, ..] => {
            if lo < first.lo {
                return false;
            }
            if first.hi < hi {
                return false;
            }
            true
        }
    }
}

/// Whether each number of the first list is in the second.
pub fn are_covered(a: &[Range], b: &[Range]) -> bool
    requires a_in_order { AreInOrder lowest a.now }
    requires b_in_order { AreInOrder lowest b.now }
    ensures { IsTrue result ↔ LiesIn a.now b.now }
{
    let mut rest_a = a;
    let mut rest_b = b;
    'covering: loop {
        match rest_a {
            [] => return true,
            [first, others @ ..] => {
                rest_b = reaching(rest_b, first.lo);
                if !have_all(rest_b, first.lo, first.hi) {
                    return false;
                }
                rest_a = others;
            }
        }
    }
}

/// Whether two ranges have the same ends.
fn is_same(a: Range, b: Range) -> bool
    ensures { IsTrue result ↔ (a ≡ b) }
{
    a.lo == b.lo && a.hi == b.hi
}

/// Whether two lists have the same ranges. For lists in order that is so exactly where they cover
/// the same numbers.
pub fn are_same(a: &[Range], b: &[Range]) -> bool
    ensures { IsTrue result ↔ (a.now ≡ b.now) }
{
    if a.len() != b.len() {
        return false;
    }
    for place in 0..a.len() {
        if !is_same(a[place], b[place]) {
            return false;
        }
    }
    true
}

/// What `stretch` gives of three lists, up to the nearest end.
fn common_stretch(a: &[Range], b: &[Range], c: &[Range], at: i64) -> (bool, bool, bool, i64)
    requires a_in_order { AreInOrder lowest a.now }
    requires b_in_order { AreInOrder lowest b.now }
    requires c_in_order { AreInOrder lowest c.now }
    requires a_ahead { ReachesTo at a.now }
    requires b_ahead { ReachesTo at b.now }
    requires c_ahead { ReachesTo at c.now }
    ensures goes_on { at ≤ℤ result.3 }
    ensures a_ahead { ReachesTo result.3 a.now }
    ensures b_ahead { ReachesTo result.3 b.now }
    ensures c_ahead { ReachesTo result.3 c.now }
    ensures a_alike { (x : ℤ) → at ≤ℤ x → x ≤ℤ result.3 → covers a.now x ≡ result.0 }
    ensures b_alike { (x : ℤ) → at ≤ℤ x → x ≤ℤ result.3 → covers b.now x ≡ result.1 }
    ensures c_alike { (x : ℤ) → at ≤ℤ x → x ≤ℤ result.3 → covers c.now x ≡ result.2 }
{
    let (in_a, in_b, end) = shared_stretch(a, b, at);
    let (in_c, end_c) = stretch(c, at);
    if end_c < end {
        (in_a, in_b, in_c, end_c)
    } else {
        (in_a, in_b, in_c, end)
    }
}

/// Whether the third set is the result of the set operation on the two others.
pub fn is_kept(a: &[Range], b: &[Range], c: &[Range], rule: Rule) -> bool
    requires a_in_order { AreInOrder lowest a.now }
    requires b_in_order { AreInOrder lowest b.now }
    requires c_in_order { AreInOrder lowest c.now }
    ensures { IsTrue result ↔ ((x : ℤ)
        → covers c.now x ≡ keeps rule (covers a.now x) (covers b.now x)) }
{
    let mut at = i64::MIN;
    let mut rest_a = a;
    let mut rest_b = b;
    let mut rest_c = c;
    'walk: loop {
        let (in_a, in_b, in_c, end) = common_stretch(rest_a, rest_b, rest_c, at);
        let wanted = keeps(rule, in_a, in_b);
        if in_c != wanted {
            return false;
        }
        if end == i64::MAX {
            return true;
        }
        rest_a = past(rest_a, end);
        rest_b = past(rest_b, end);
        rest_c = past(rest_c, end);
        at = end + 1;
    }
}

/// The ranges of numbers that are listed in order, with repeats.
pub fn gather(alloc: Global, numbers: &[i64]) -> Result<Vec<Range>, AllocError>
    requires { IsSorted int_cmp numbers.now }
    ensures in_order { IfOk result (λ v. AreInOrder lowest v.items) }
    ensures same { IfOk result (λ v. (x : ℤ) → covers v.items x ≡ list_any (int_eq x) numbers.now) }
{
    let mut out = Vec::new(alloc);
    for number in numbers {
        push_range(&mut out, *number, *number)?;
    }
    Ok(out)
}

/// Whether a number is in one of the ranges, by binary search.
pub fn is_covered(ranges: &[Range], number: i64) -> bool
    requires { AreInOrder lowest ranges.now }
    ensures { result ≡ covers ranges.now number }
{
    let mut rest = ranges;
    'halving: loop {
        let (front, back) = rest.split_at(rest.len() / 2);
        match back {
            [] => return false,
            [middle, others @ ..] => {
                if number < middle.lo {
                    rest = front;
                } else if number <= middle.hi {
                    return true;
                } else {
                    rest = others;
                }
            }
        }
    }
}

/// How many numbers a range has.
#[tactic(auto, using(crate::proofs::Numbers::size_is, std::proofs::lemmas::Int::ints))]
fn size(range: Range) -> u128
    requires { range.lo ≤ℤ range.hi }
    ensures exact { result ≡ count_between range.lo range.hi }
    ensures bound { result ≤ 2 ^ 64 }
{
    (range.hi as i128 - range.lo as i128 + 1) as u128
}

/// How many numbers there are in all the ranges.
pub fn count(ranges: &[Range]) -> u128
    requires { AreInOrder lowest ranges.now }
    ensures { result ≡ sum_by (λ r. count_between r.lo r.hi) ranges.now }
{
    let mut total: u128 = 0;
    for range in ranges {
        total += size(*range);
    }
    total
}

/// Whether all the numbers of the ranges are from `lo` to `hi`.
pub fn lie_within(ranges: &[Range], lo: i64, hi: i64) -> bool
    requires { AreInOrder lowest ranges.now }
    ensures { IsTrue result ↔ ((x : ℤ) → IsTrue (covers ranges.now x) → (lo ≤ℤ x) × (x ≤ℤ hi)) }
{
    match ranges {
        [] => true,
        [first, ..] => {
            let last = ranges[ranges.len() - 1];
            lo <= first.lo && last.hi <= hi
        }
    }
}
