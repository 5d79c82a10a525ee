//! The element at an index.

ghost use Rattle.std.specs.Prelude.{◌≡◌, ◌+◌, ◌≤◌, ◌<◌, ℕ, pos, IfSome, IfNone, option_map};
ghost use Rattle.fz_store.specs.of_meaning.Relations.{element_at};
ghost use Rattle.fz_kernel.specs.Views.{ints, bools, sets};

use crate::elements::Elements;
use fz_store::IntSet;

// The index counted from 0, of one that is counted from 1; none where it is no index of `count`
// elements.
fn place_of(index: i128, count: usize) -> Option<usize>
    ensures place { IfSome result (λ place. index ≡ pos (place + 1)) }
    ensures in_range { IfSome result (λ place. place < count) }
    ensures none { IfNone result ((place : ℕ) → index ≡ pos (place + 1) → count ≤ place) }
{
    if index < 1 || (count as i128) < index {
        return None;
    }
    Some((index - 1) as usize)
}

/// The element at an index counted from 1; none where that is no index.
pub fn int_element_at(index: i128, elements: &Elements) -> Option<i64>
    ensures exact { result ≡ element_at (ints elements.now) index }
{
    match place_of(index, elements.len()) {
        Some(place) => Some(elements.int(place)),
        None => None,
    }
}

/// The same of an index in 64 bits.
pub fn int_element(index: i64, elements: &Elements) -> Option<i64>
    ensures exact { result ≡ element_at (ints elements.now) index }
{
    int_element_at(i128::from(index), elements)
}

/// The element at an index counted from 1; none where that is no index.
pub fn bool_element(index: i64, elements: &Elements) -> Option<bool>
    ensures exact { result ≡ element_at (bools elements.now) index }
{
    match place_of(i128::from(index), elements.len()) {
        Some(place) => Some(elements.truth(place)),
        None => None,
    }
}

/// The element at an index counted from 1; none where that is no index.
pub fn set_element<'s>(index: i64, elements: &Elements<'s>) -> Option<&'s IntSet>
    ensures exact { option_map (λ s. s.now) result ≡ element_at (sets elements.now) index }
{
    match place_of(i128::from(index), elements.len()) {
        Some(place) => Some(elements.set(place)),
        None => None,
    }
}
