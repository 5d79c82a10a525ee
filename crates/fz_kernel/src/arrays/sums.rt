//! Sums over arrays.

ghost use Rattle.std.specs.Prelude.{◌≡◌, true, false, IfSome, IfNone};
ghost use Rattle.fz_store.specs.of_meaning.Relations.{total, products, where_true};
ghost use Rattle.fz_store.specs.of_meaning.States.{leaves_128};
ghost use Rattle.fz_kernel.specs.Views.{ints, bools};

use crate::elements::Elements;
use crate::numbers::product;

/// The sum of `a[i] * b[i]`, added from the left; none where a partial sum leaves signed 128 bits.
#[inline(always)]
pub fn sum_of_products(a: &Elements, b: &Elements) -> Option<i128>
    ensures exact { IfSome result (λ sum. sum ≡ total (products (ints a.now) (ints b.now))) }
    ensures within { IfSome result
        (λ sum. leaves_128 (products (ints a.now) (ints b.now)) ≡ false) }
    ensures leaves { IfNone result (leaves_128 (products (ints a.now) (ints b.now)) ≡ true) }
{
    let mut sum: i128 = 0;
    for place in 0..a.len().min(b.len()) {
        let term = product(a.int(place), b.int(place));
        match sum.checked_add(term) {
            Some(more) => sum = more,
            None => return None,
        }
    }
    Some(sum)
}

/// The sum of the `a[i]` for which `b[i]` is true. No array is long enough for it to leave 128
/// bits.
#[inline(always)]
pub fn sum_where_true(a: &Elements, b: &Elements) -> i128
    ensures exact { result ≡ total (where_true (ints a.now) (bools b.now)) }
{
    let mut sum: i128 = 0;
    for place in 0..a.len().min(b.len()) {
        if b.truth(place) {
            sum += i128::from(a.int(place));
        }
    }
    sum
}
