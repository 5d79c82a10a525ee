//! The weight of a set of things.
ghost use Rattle.std.specs.Prelude.{◌≡◌, ℤ, false, map, IfOk, IfSome, IfNone};
ghost use Rattle.std.specs.List.{filter, zip};
ghost use Rattle.std.specs.FinSet as sets;
ghost use Rattle.std.specs.FinSet.{from_list};
ghost use Rattle.fz_kernel.specs.of_meaning.Relations.{◌=ℤ◌, is_weight_of, total};
ghost use Rattle.fz_kernel.specs.Views.{ints};

use crate::reading::{common_places, number_at};
use fz_kernel::Elements;
use fz_kernel::arrays::{all_elements_different, numbers_of};
use fz_store::{IntSet, SetError};
use std::alloc::Global;

/// The sum of the weights of the things that are in the set; none where two things are equal, or
/// the set has what is no thing.
pub fn weight_of(
    alloc: Global,
    things: &Elements,
    weights: &Elements,
    chosen: &IntSet,
) -> Result<Option<i128>, SetError>
    ensures exact { IfOk result (λ o. IfSome o (λ w. (n : ℤ)
        → is_weight_of (ints things.now) (ints weights.now) chosen.now n ≡ (n =ℤ w))) }
    ensures none { IfOk result (λ o. IfNone o ((n : ℤ)
        → is_weight_of (ints things.now) (ints weights.now) chosen.now n ≡ false)) }
{
    if !all_elements_different(alloc, things)? {
        return Ok(None);
    }
    let all = set_of(alloc, things)?;
    if !chosen.is_subset(&all) {
        return Ok(None);
    }
    Ok(Some(sum_of_chosen(things, weights, chosen)))
}

// The set of the elements.
fn set_of(alloc: Global, elements: &Elements) -> Result<IntSet, SetError>
    ensures { IfOk result (λ s. s ≡ from_list (ints elements.now)) }
{
    IntSet::list(alloc, &numbers_of(alloc, elements)?)
}

// The sum of the weights of the things that are in the set. No array is long enough for it to leave
// 128 bits.
fn sum_of_chosen(things: &Elements, weights: &Elements, chosen: &IntSet) -> i128
    ensures { result ≡ total (map (λ p. p.1) (filter (λ p. sets.contains chosen.now p.0)
        (zip (ints things.now) (ints weights.now)))) }
{
    let mut sum: i128 = 0;
    for place in 0..common_places(things, weights) {
        if chosen.contains(number_at(things, place)) {
            sum += i128::from(number_at(weights, place));
        }
    }
    sum
}
