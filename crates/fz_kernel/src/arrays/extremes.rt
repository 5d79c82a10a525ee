//! The greatest and the least element.

ghost use Rattle.std.specs.Prelude.{◌≡◌, ℤ, [], ◌&&◌, int_le, IfSome, IfNone};
ghost use Rattle.std.specs.List.{list_all};
ghost use Rattle.fz_store.specs.of_meaning.Relations.{◌=ℤ◌, is_among};
ghost use Rattle.fz_kernel.specs.Views.{ints};

use crate::elements::Elements;

/// The greatest element; none where there is no element.
#[inline(always)]
pub fn maximum(elements: &Elements) -> Option<i64>
    ensures exact { IfSome result (λ m. (n : ℤ) → (is_among n (ints elements.now)
        && list_all (λ x. int_le x n) (ints elements.now)) ≡ (n =ℤ m)) }
    ensures none { IfNone result (ints elements.now ≡ []) }
{
    if elements.len() == 0 {
        return None;
    }
    let mut greatest = elements.int(0);
    for place in 1..elements.len() {
        greatest = greatest.max(elements.int(place));
    }
    Some(greatest)
}

/// The least element; none where there is no element.
#[inline(always)]
pub fn minimum(elements: &Elements) -> Option<i64>
    ensures exact { IfSome result (λ m. (n : ℤ) → (is_among n (ints elements.now)
        && list_all (λ x. int_le n x) (ints elements.now)) ≡ (n =ℤ m)) }
    ensures none { IfNone result (ints elements.now ≡ []) }
{
    if elements.len() == 0 {
        return None;
    }
    let mut least = elements.int(0);
    for place in 1..elements.len() {
        least = least.min(elements.int(place));
    }
    Some(least)
}
