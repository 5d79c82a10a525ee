//! Elements that have to be indices.

ghost use Rattle.std.specs.Prelude.{◌≡◌, ◌+ℤ◌, ◌-ℤ◌, ◌∷◌, [], pos, length, IfSome};
ghost use Rattle.fz_builtins.specs.of_meaning.Relations.{lies_between};
ghost use Rattle.fz_builtins.specs.of_kernel.Views.{ints};
ghost use Rattle.fz_builtins.specs.Readings.{int, sets_of};
ghost use Rattle.fz_reasons.specs.Elements.{IsNoIndex};

use crate::reason::NoIndex;
use fz_kernel::{ArgumentView, Elements};

/// The first element that isn't one of `count` numbers from `first` on.
pub(crate) fn no_index(elements: &Elements, first: i64, count: usize) -> Option<NoIndex>
    ensures { IfSome result (IsNoIndex (ints elements.now) first count) }
{
    let (low, high) = (i128::from(first), last_index(first, count));
    for place in 0..elements.len() {
        let value = elements.int(place);
        if !lies_between(low, high, i128::from(value)) {
            return Some(NoIndex {
                place,
                value,
                low,
                high,
            });
        }
    }
    None
}

/// The last of `count` numbers from `first` on.
pub(crate) fn last_index(first: i64, count: usize) -> i128
    ensures { ((first +ℤ pos count) -ℤ pos 1) ≡ result }
{
    i128::from(first) + count as i128 - 1
}

/// Whether the number is from `low` to `high`.
pub(crate) fn lies_between(low: i128, high: i128, number: i128) -> bool
    ensures { result ≡ lies_between low high number }
{
    low <= number && number <= high
}

/// The index of a set, where it is none.
pub(crate) fn no_set_index(view: &ArgumentView<'_, '_>) -> Option<NoIndex>
    ensures { IfSome result
        (IsNoIndex (int view.now 0 ∷ []) (pos 1) (length (sets_of view.now 1))) }
{
    let (value, low) = (view.int(0), 1);
    let high = view.elements(1).len() as i128;
    if lies_between(low, high, i128::from(value)) {
        return None;
    }
    Some(NoIndex {
        place: 0,
        value,
        low,
        high,
    })
}
