//! Quantities that are below 0 and must not be.

ghost use Rattle.std.specs.Prelude.{◌≡◌, ◌<◌, false, IfSome, Some, slice_get};
ghost use Rattle.fz_builtins.specs.of_meaning.declared.builtin.Builtin.TheVariants as builtin;
ghost use Rattle.fz_builtins.specs.of_meaning.Relations.{is_natural};
ghost use Rattle.fz_builtins.specs.of_kernel.Views.{arguments_of, assigned, ints};
ghost use Rattle.fz_reasons.specs.Reasons.{IsNegative};

use crate::loads::adds_up;
use crate::readings::number_count;
use crate::reason::{Negative, Quantity};
use fz_kernel::{ArgumentView, Elements};
use fz_store::Builtin;

/// The first quantity that is below 0 and must not be.
pub(crate) fn by_negative(builtin: Builtin, view: &ArgumentView<'_, '_>) -> Option<Negative>
    ensures { IfSome result (IsNegative builtin (assigned view.now) (arguments_of view.now)) }
{
    match builtin {
        Builtin::FznDisjunctive => disjunctive(view),
        Builtin::FznDisjunctiveStrict => disjunctive(view),
        Builtin::FznCumulative => cumulative(view),
        Builtin::FznKnapsack => knapsack(view),
        Builtin::FznSlidingSum => width(view),
        Builtin::GecodeAmongSeqInt => width(view),
        _ => None,
    }
}

/// The first duration below 0.
#[tactic(auto, unfolding(crate::specs::Rows::row_at))]
fn disjunctive(view: &ArgumentView<'_, '_>) -> Option<Negative>
    ensures free { IfSome result
        (IsNegative builtin.FznDisjunctive (assigned view.now) (arguments_of view.now)) }
    ensures strict { IfSome result
        (IsNegative builtin.FznDisjunctiveStrict (assigned view.now) (arguments_of view.now)) }
{
    let (starts, lengths) = (view.elements(0), view.elements(1));
    first_below(Quantity::Duration, &lengths, number_count(&starts))
}

/// The first duration below 0, or else the first use, or the limit.
#[tactic(auto, unfolding(crate::specs::Rows::row_at))]
fn cumulative(view: &ArgumentView<'_, '_>) -> Option<Negative>
    ensures { IfSome result
        (IsNegative builtin.FznCumulative (assigned view.now) (arguments_of view.now)) }
{
    let (starts, lengths, uses) = (view.elements(0), view.elements(1), view.elements(2));
    let count = number_count(&starts)
        .min(number_count(&lengths))
        .min(number_count(&uses));
    if let Some(found) = first_below(Quantity::Duration, &lengths, count) {
        return Some(found);
    }
    if let Some(found) = first_below(Quantity::Use, &uses, count) {
        return Some(found);
    }
    if count == 0 {
        return None;
    }
    below(Quantity::Limit, view.int(3))
}

/// The first number of things below 0, or else the weight, or the profit.
fn knapsack(view: &ArgumentView<'_, '_>) -> Option<Negative>
    ensures { IfSome result
        (IsNegative builtin.FznKnapsack (assigned view.now) (arguments_of view.now)) }
{
    if !adds_up(view) {
        return None;
    }
    let numbers = view.elements(2);
    if let Some(found) = first_below(Quantity::Number, &numbers, numbers.len()) {
        return Some(found);
    }
    if let Some(found) = below(Quantity::Weight, view.int(3)) {
        return Some(found);
    }
    below(Quantity::Profit, view.int(4))
}

/// A number of neighbours below 0.
#[tactic(auto, unfolding(crate::specs::Rows::row_at))]
fn width(view: &ArgumentView<'_, '_>) -> Option<Negative>
    ensures summed { IfSome result
        (IsNegative builtin.FznSlidingSum (assigned view.now) (arguments_of view.now)) }
    ensures counted { IfSome result
        (IsNegative builtin.GecodeAmongSeqInt (assigned view.now) (arguments_of view.now)) }
{
    below(Quantity::Width, view.int(2))
}

/// The first of so many numbers that is below 0.
fn first_below(quantity: Quantity, numbers: &Elements, most: usize) -> Option<Negative>
    ensures there { IfSome result (λ n. slice_get (ints numbers.now) n.place ≡ Some n.value) }
    ensures among { IfSome result (λ n. n.place < most) }
    ensures below { IfSome result (λ n. is_natural n.value ≡ false) }
    ensures quantity { IfSome result (λ n. n.quantity ≡ quantity) }
{
    for place in 0..numbers.len().min(most) {
        let value = numbers.int(place);
        if !is_natural(value) {
            return Some(Negative {
                quantity,
                place,
                value,
            });
        }
    }
    None
}

/// A quantity of which there is one, where it is below 0.
fn below(quantity: Quantity, value: i64) -> Option<Negative>
    ensures there { IfSome result (λ n. (n.place ≡ 0) × (n.value ≡ value)) }
    ensures below { IfSome result (λ n. is_natural n.value ≡ false) }
    ensures quantity { IfSome result (λ n. n.quantity ≡ quantity) }
{
    if is_natural(value) {
        return None;
    }
    Some(Negative {
        quantity,
        place: 0,
        value,
    })
}

fn is_natural(number: i64) -> bool
    ensures { result ≡ is_natural number }
{
    0 <= number
}
