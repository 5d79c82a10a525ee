//! The sums of runs of neighbours: of the elements, or of 1 for each element that is in a set.
ghost use Rattle.std.specs.Prelude.{◌≡◌, ◌+◌, ◌≤◌, ◌<◌, drop, length, option_map, take};
ghost use Rattle.std.specs.List.{list_all};
ghost use Rattle.fz_kernel.specs.of_meaning.Relations.{total, lies_between, marks, slides_between, windows};
ghost use Rattle.fz_kernel.specs.Views.{ints};
ghost use Rattle.fz_scheduling.specs.Places.{number_at, terms};

use crate::reading::{number_at, number_count};
use fz_kernel::Elements;
use fz_kernel::numbers::number_of_truth;
use fz_store::IntSet;

/// Whether the sum of each run of `width` neighbours lies from `low` to `high`; false where the
/// width is negative. There are runs of none in any list, and their sum is 0. Where there is a set
/// to count in, an element counts 1 if it is in the set, and else 0.
pub fn slides_between(
    low: i64,
    high: i64,
    width: i64,
    counted: Option<&IntSet>,
    xs: &Elements,
) -> bool
    ensures exact { result ≡ slides_between low high width
        (terms (option_map (λ s. s.now) counted.entry) (ints xs.now)) }
{
    if width == 0 {
        return is_between(low, high, 0);
    }
    0 < width && all_lie_between(low, high, width as usize, counted, xs)
}

fn all_lie_between(
    low: i64,
    high: i64,
    width: usize,
    counted: Option<&IntSet>,
    xs: &Elements,
) -> bool
    requires { 0 < width }
    ensures { result ≡ list_all (λ w. lies_between low high (total w))
        (windows width (terms (option_map (λ s. s.now) counted.entry) (ints xs.now))) }
{
    if number_count(xs) < width {
        return true;
    }
    running_sums_lie_between(low, high, width, counted, xs)
}

// Whether the sum of each run lies within the bounds. It is computed from the sum of the run
// before: without the first number of that, and with the new last one.
fn running_sums_lie_between(
    low: i64,
    high: i64,
    width: usize,
    counted: Option<&IntSet>,
    xs: &Elements,
) -> bool
    requires some { 0 < width }
    requires fits { width ≤ length (ints xs.now) }
    ensures { result ≡ list_all (λ w. lies_between low high (total w))
        (windows width (terms (option_map (λ s. s.now) counted.entry) (ints xs.now))) }
{
    let mut sum = sum_of(counted, xs, 0, width);
    for start in 0..number_count(xs) - width {
        if !is_between(low, high, sum) {
            return false;
        }
        let left = i128::from(term_at(counted, xs, start));
        let new = i128::from(term_at(counted, xs, start + width));
        sum = sum - left + new;
    }
    is_between(low, high, sum)
}

/// The sum of a run of neighbours. No array is long enough for it to leave 128 bits.
pub fn sum_of(counted: Option<&IntSet>, xs: &Elements, start: usize, width: usize) -> i128
    requires { start + width ≤ length (ints xs.now) }
    ensures sum { total (take width (drop start
        (terms (option_map (λ s. s.now) counted.entry) (ints xs.now)))) ≡ result }
    ensures within { start + width
        ≤ length (terms (option_map (λ s. s.now) counted.entry) (ints xs.now)) }
{
    let mut sum: i128 = 0;
    for place in 0..width {
        sum += i128::from(term_at(counted, xs, start + place));
    }
    sum
}

// What is added up for the element at an index; 0 past the end.
#[inline(always)]
fn term_at(counted: Option<&IntSet>, xs: &Elements, place: usize) -> i64
    ensures { result ≡ number_at
        (terms (option_map (λ s. s.now) counted.entry) (ints xs.now)) place }
{
    match counted {
        Some(set) => mark_at(set, xs, place),
        None => number_at(xs, place),
    }
}

// 1 for an element that is in the set, and else 0.
#[inline(always)]
fn mark_at(set: &IntSet, xs: &Elements, place: usize) -> i64
    ensures { result ≡ number_at (marks set.now (ints xs.now)) place }
{
    if xs.len() <= place {
        return 0;
    }
    number_of_truth(set.contains(xs.int(place)))
}

#[inline(always)]
fn is_between(low: i64, high: i64, number: i128) -> bool
    ensures { result ≡ lies_between low high number }
{
    i128::from(low) <= number && number <= i128::from(high)
}
