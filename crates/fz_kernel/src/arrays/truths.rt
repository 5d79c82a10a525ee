//! Booleans in arrays.

ghost use Rattle.std.specs.Prelude.{◌≡◌, not, length};
ghost use Rattle.std.specs.List.{list_all, list_any, filter};
ghost use Rattle.fz_store.specs.of_meaning.Relations.{is_odd};
ghost use Rattle.fz_kernel.specs.Views.{bools};

use crate::elements::Elements;
use crate::indices::{all_between, any_between};

/// Whether all are true.
pub fn all_true(elements: &Elements) -> bool
    ensures exact { result ≡ list_all (λ x. x) (bools elements.now) }
{
    all_between(0, elements.len(), |place| elements.truth(place))
}

/// Whether at least one is true.
#[inline(always)]
pub fn any_true(elements: &Elements) -> bool
    ensures exact { result ≡ list_any (λ x. x) (bools elements.now) }
{
    any_between(0, elements.len(), |place| elements.truth(place))
}

/// Whether at least one is false.
#[inline(always)]
pub fn any_false(elements: &Elements) -> bool
    ensures exact { result ≡ list_any (λ x. not x) (bools elements.now) }
{
    any_between(0, elements.len(), |place| !elements.truth(place))
}

/// Whether an odd number of them are true.
pub fn odd_number_true(elements: &Elements) -> bool
    ensures exact { result ≡ is_odd (length (filter (λ x. x) (bools elements.now))) }
{
    let mut odd = false;
    for place in 0..elements.len() {
        if elements.truth(place) {
            odd = !odd;
        }
    }
    odd
}
