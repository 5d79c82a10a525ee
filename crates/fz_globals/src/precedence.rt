//! Which values come before which in a list.

ghost use Rattle.std.specs.Prelude.{◌≡◌, List, Some, ℤ, pos, option_map, IfOk};
ghost use Rattle.std.specs.Ordering.{int_cmp};
ghost use Rattle.std.specs.List.Sorted.{IsSorted};
ghost use Rattle.fz_kernel.specs.of_meaning.Relations.{all_neighbours, has_only, precedes, precedes_in_sets, rises_by_one};
ghost use Rattle.fz_kernel.specs.Views.{ints, sets};
ghost use Rattle.fz_globals.specs.Keys.{AreKeys, comes_before};

use crate::firsts::{first_place, keys_in_order};
use crate::testing::neighbours_pass;
use fz_kernel::Elements;
use fz_store::IntSet;
use std::alloc::{AllocError, Global};

// Up to this many numbers in a chain the elements are gone over for each of them, which takes no
// memory.
const FEW: usize = 8;

/// Whether the number `second` comes only after a `first`.
pub fn precedes(first: i64, second: i64, elements: &Elements) -> bool
    ensures exact { result ≡ precedes first second (ints elements.now) }
{
    for place in 0..elements.len() {
        let element = elements.int(place);
        if element == second {
            return false;
        }
        if element == first {
            return true;
        }
    }
    true
}

/// Whether a set with `second` and without `first` comes only after one with `first` and without
/// `second`.
#[tactic(auto, using(crate::proofs::Preceding::sets_in_turn))]
pub fn precedes_in_sets(first: i64, second: i64, parts: &Elements) -> bool
    ensures exact { result ≡ precedes_in_sets first second (sets parts.now) }
{
    for place in 0..parts.len() {
        let part = parts.set(place);
        if has_only(part, second, first) {
            return false;
        }
        if has_only(part, first, second) {
            return true;
        }
    }
    true
}

/// Whether the set has one number, and not the other.
pub fn has_only(set: &IntSet, one: i64, other: i64) -> bool
    ensures exact { result ≡ has_only one other set.now }
{
    set.contains(one) && !set.contains(other)
}

/// Whether each number of the chain but the first comes only after the one before it. Only for a
/// long chain does it sort a copy of the elements.
pub fn precede_in_chain(
    alloc: Global,
    chain: &Elements,
    elements: &Elements,
) -> Result<bool, AllocError>
    ensures exact { IfOk result (λ r. r
        ≡ all_neighbours (λ s t. precedes s t (ints elements.now)) (ints chain.now)) }
{
    if chain.len() <= FEW {
        return Ok(each_precedes_next(chain, elements));
    }
    let keys = keys_in_order(alloc, elements)?;
    Ok(first_places_rise(chain, &keys))
}

/// Whether each element is greater by at most one than the greatest so far, which is 0 at first.
pub fn rises_by_one(elements: &Elements) -> bool
    ensures exact { result ≡ rises_by_one (pos 0) (ints elements.now) }
{
    let mut most: i64 = 0;
    for place in 0..elements.len() {
        let element = elements.int(place);
        if i128::from(element) > i128::from(most) + 1 {
            return false;
        }
        most = most.max(element);
    }
    true
}

// The elements are gone over once for each number of the chain.
fn each_precedes_next(chain: &Elements, elements: &Elements) -> bool
    ensures { result ≡ all_neighbours (λ s t. precedes s t (ints elements.now)) (ints chain.now) }
{
    neighbours_pass(chain, |first, second| precedes(first, second, elements))
}

// The same, with the keys of the elements in order.
fn first_places_rise(chain: &Elements, keys: &[i128]) -> bool
    requires { IsSorted int_cmp keys.now }
    ensures { (xs : List ℤ) → AreKeys xs keys.now
        → result ≡ all_neighbours (λ s t. precedes s t xs) (ints chain.now) }
{
    neighbours_pass(chain, |first, second| comes_first(keys, first, second))
}

// Whether the second number comes only after the first one.
fn comes_first(keys: &[i128], first: i64, second: i64) -> bool
    requires { IsSorted int_cmp keys.now }
    ensures { (xs : List ℤ) → AreKeys xs keys.now → result ≡ precedes first second xs }
{
    comes_before(first_place(keys, first), first_place(keys, second))
}

// Whether the first index is less than the second, where there is a second.
fn comes_before(first: Option<usize>, second: Option<usize>) -> bool
    ensures { result ≡ comes_before (option_map pos first) (option_map pos second) }
{
    match second {
        Some(later) => is_below(first, later),
        None => true,
    }
}

fn is_below(first: Option<usize>, later: usize) -> bool
    ensures { result ≡ comes_before (option_map pos first) (Some (pos later)) }
{
    match first {
        Some(place) => place < later,
        None => false,
    }
}
