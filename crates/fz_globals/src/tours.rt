//! Lists of successors: an element is the index of the one that follows it. Where the indices in a
//! list begin with `first`, a position is counted from 0 and is the index less `first`.

ghost use Rattle.std.specs.Prelude.{◌≡◌, ◌+◌, ◌<◌, ◌≤◌, ◌+ℤ◌, ◌-ℤ◌, ℕ, pos, true, false, [], length, slice_get, IfNone, IfOk, IfSome, Some};
ghost use Rattle.std.specs.Option.{option_map_or};
ghost use Rattle.fz_kernel.specs.of_meaning.Relations.{◌=ℤ◌, all_different, element_at, are_inverse, are_places, as_places, end_of_tour, is_circuit, is_one_tour, is_subcircuit, leads_back, lies_between, moved_from, tour};
ghost use Rattle.fz_kernel.specs.Views.{ints, slots_of};

use crate::indices::{place_from, place_in};
use crate::testing::numbers_pass;
use fz_kernel::Elements;
use fz_kernel::arrays::all_elements_different;
use std::alloc::{AllocError, Global};

/// Whether each list is the inverse of the other. The indices in them begin with `fo` and `go`.
pub fn are_inverse(f: &Elements, fo: i64, g: &Elements, go: i64) -> bool
    ensures exact { result ≡ are_inverse (as_places fo (ints f.now)) (as_places go (ints g.now)) }
{
    leads_back(f, fo, g, go) && leads_back(g, go, f, fo)
}

/// Whether the successors, whose indices begin with `first`, lead from the first position to all,
/// to each once, and back. It takes no memory.
pub fn is_circuit(first: i64, next: &Elements) -> bool
    ensures exact { result ≡ is_circuit (as_places first (ints next.now)) }
{
    if next.len() == 0 {
        return true;
    }
    if !are_indices(first, next) {
        return false;
    }
    match walk(first, next, 0, next.len()) {
        Some(place) => place == 0,
        None => false,
    }
}

/// Whether the successors, whose indices begin with `first`, are a permutation, of one position at
/// least, whose moved positions make one cycle.
pub fn is_subcircuit(alloc: Global, first: i64, next: &Elements) -> Result<bool, AllocError>
    ensures exact { IfOk result (λ r. r ≡ is_subcircuit (as_places first (ints next.now))) }
{
    if next.len() == 0 {
        return Ok(false);
    }
    if !are_indices(first, next) {
        return Ok(false);
    }
    let different = all_elements_different(alloc, next)?;
    if !different {
        return Ok(false);
    }
    Ok(is_one_tour(first, next))
}

fn leads_back(f: &Elements, fo: i64, g: &Elements, go: i64) -> bool
    ensures { result ≡ leads_back (pos 1) (as_places fo (ints f.now)) (as_places go (ints g.now)) }
{
    numbers_pass(0, f, |place, index| leads_to(index, fo, g, go, place))
}

// Whether the element of `g` at an index, which is counted from `first`, is the index of a
// position, which is counted from 0.
fn leads_to(index: i64, first: i64, g: &Elements, go: i64, place: i128) -> bool
    ensures { result ≡ option_map_or (λ y. y =ℤ (place +ℤ pos 1))
        (element_at (as_places go (ints g.now)) ((index -ℤ first) +ℤ pos 1)) false }
{
    match place_from(index, first, g.len()) {
        Some(target) => place_in(g.int(target), go) == place,
        None => false,
    }
}

// Whether each element is the index of one of them.
fn are_indices(first: i64, next: &Elements) -> bool
    ensures { result ≡ are_places (length (as_places first (ints next.now)))
        (as_places first (ints next.now)) }
{
    let count = next.len();
    numbers_pass(0, next, |_, index| is_index(index, first, count))
}

fn is_index(index: i64, first: i64, count: usize) -> bool
    ensures { result ≡ lies_between (pos 1) (pos count) ((index -ℤ first) +ℤ pos 1) }
{
    let place = place_in(index, first);
    place >= 0 && place < count as i128
}

// The position that follows a position; both are counted from 0.
fn led_to(first: i64, next: &Elements, place: usize) -> usize
    requires indices { are_places (length (as_places first (ints next.now)))
        (as_places first (ints next.now)) ≡ true }
    requires in_range { place < length (slots_of next.now) }
    ensures within { result < length (slots_of next.now) }
    ensures leads { element_at (as_places first (ints next.now)) (pos (place + 1))
        ≡ Some (pos (result + 1)) }
{
    match place_from(next.int(place), first, next.len()) {
        Some(target) => target,
        // not reached, since each element is the index of a position
        None => place,
    }
}

// The position after so many steps from a position; none where the steps come back to that position
// before.
fn walk(first: i64, next: &Elements, start: usize, steps: usize) -> Option<usize>
    requires indices { are_places (length (as_places first (ints next.now)))
        (as_places first (ints next.now)) ≡ true }
    requires in_range { start < length (slots_of next.now) }
    ensures ends { IfSome result (λ p. end_of_tour (as_places first (ints next.now)) steps
        (pos (start + 1)) ≡ Some (pos (p + 1))) }
    ensures goes_on { IfSome result (λ p. (k : ℕ) → 0 < k → k < steps
        → end_of_tour (as_places first (ints next.now)) k (pos (start + 1)) ≡ Some (pos (start + 1))
        → ⊥) }
    ensures comes_back { IfNone result
        (all_different (tour (as_places first (ints next.now)) steps (pos (start + 1))) ≡ false) }
{
    let mut place = start;
    for step in 0..steps {
        if step > 0 && place == start {
            return None;
        }
        place = led_to(first, next, place);
    }
    Some(place)
}

// Whether a permutation leads from the first position that it moves to all that it moves.
fn is_one_tour(first: i64, next: &Elements) -> bool
    requires indices { are_places (length (as_places first (ints next.now)))
        (as_places first (ints next.now)) ≡ true }
    requires different { all_different (as_places first (ints next.now)) ≡ true }
    ensures { result ≡ is_one_tour (as_places first (ints next.now))
        (moved_from (pos 1) (as_places first (ints next.now))) }
{
    match first_moved(first, next) {
        Some(start) => match walk(first, next, start, count_moved(first, next)) {
            Some(_) => true,
            None => false,
        },
        None => true,
    }
}

/// The first position, counted from 0, that isn't its own successor.
pub fn first_moved(first: i64, next: &Elements) -> Option<usize>
    ensures in_range { IfSome result (λ p. p < length (slots_of next.now)) }
    ensures found { IfSome result (λ p. slice_get
        (moved_from (pos 1) (as_places first (ints next.now))) 0 ≡ Some (pos (p + 1))) }
    ensures none { IfNone result (moved_from (pos 1) (as_places first (ints next.now)) ≡ []) }
{
    for place in 0..next.len() {
        if place_in(next.int(place), first) != place as i128 {
            return Some(place);
        }
    }
    None
}

/// How many positions aren't their own successors.
pub fn count_moved(first: i64, next: &Elements) -> usize
    ensures exact { result ≡ length (moved_from (pos 1) (as_places first (ints next.now))) }
{
    let mut count = 0;
    for place in 0..next.len() {
        if place_in(next.int(place), first) != place as i128 {
            count += 1;
        }
    }
    count
}
