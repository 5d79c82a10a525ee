//! The loads of bins, the totals of knapsacks, and the sums of runs of neighbours.

ghost use Rattle.std.specs.Prelude.{◌≡◌, ◌+◌, ◌<◌, pos, IfSome, IsTrue, option_map};
ghost use Rattle.fz_builtins.specs.of_meaning.declared.builtin.Builtin.TheVariants as builtin;
ghost use Rattle.fz_builtins.specs.of_meaning.Relations.{total};
ghost use Rattle.fz_builtins.specs.of_kernel.Views.{arguments_of, assigned, ints};
ghost use Rattle.fz_builtins.specs.of_scheduling.Places.{terms};
ghost use Rattle.fz_reasons.specs.Elements.{HasOtherLoad, IsOtherRun, IsOtherTotal};
ghost use Rattle.fz_reasons.specs.Reasons.{AddsUp, Says};

use crate::places::{lies_between, no_index};
use crate::readings::number_count;
use crate::reason::{BinLoad, Reason, Run, Total};
use fz_builtins::leaves;
use fz_kernel::arrays::sum_of_products;
use fz_kernel::{ArgumentView, Elements};
use fz_scheduling::bins::load_of;
use fz_scheduling::slides::sum_of;
use fz_store::{IntSet, Wide};

/// The first bin, from `first` on, that has another load than the one that is given for it.
fn other_load(bins: &Elements, weights: &Elements, loads: &Elements, first: i64) -> Option<BinLoad>
    ensures { IfSome result
        (HasOtherLoad (ints bins.now) (ints weights.now) (ints loads.now) first) }
{
    for place in 0..loads.len() {
        let bin = i128::from(first) + place as i128;
        let load = load_of(bin, bins, weights);
        let wanted = loads.int(place);
        if i128::from(wanted) != load {
            return Some(BinLoad {
                place,
                bin,
                load,
                wanted,
            });
        }
    }
    None
}

/// The sum of products, where it is another number; none where it leaves 128 bits.
fn other_total(weights: &Elements, numbers: &Elements, wanted: i64) -> Option<Total>
    ensures { IfSome result (IsOtherTotal (ints weights.now) (ints numbers.now) wanted) }
{
    let total = sum_of_products(weights, numbers)?;
    if total == i128::from(wanted) {
        None
    } else {
        Some(Total { total, wanted })
    }
}

/// The first run of `count` neighbours, more than none, whose sum isn't from `low` to `high`. Where
/// there is a set to count in, an element counts 1 if it is in the set, and else 0.
pub(crate) fn other_run(
    low: i64,
    high: i64,
    count: i64,
    counted: Option<&IntSet>,
    xs: &Elements,
) -> Option<Run>
    ensures { IfSome result (IsOtherRun low high count
        (terms (option_map (λ s. s.now) counted.entry) (ints xs.now))) }
{
    let width = width_of(count)?;
    for place in 0..number_count(xs).saturating_sub(width - 1) {
        let sum = sum_of(counted, xs, place, width);
        if !lies_between(i128::from(low), i128::from(high), sum) {
            return Some(Run {
                place,
                count: width,
                sum,
            });
        }
    }
    None
}

fn width_of(count: i64) -> Option<usize>
    ensures width { IfSome result (λ n. count ≡ pos n) }
    ensures some { IfSome result (λ n. 0 < n) }
{
    if count < 1 {
        None
    } else {
        Some(count as usize)
    }
}

/// A bin that has no load, or another one than is given for it.
#[tactic(auto, unfolding(crate::specs::Reasons::Says))]
pub(crate) fn bin_packing_load(view: &ArgumentView<'_, '_>) -> Option<Reason>
    ensures { IfSome result
        (Says builtin.GecodeBinPackingLoad (assigned view.now) (arguments_of view.now)) }
{
    let (loads, bins, first) = (&view.elements(0), &view.elements(1), view.int(3));
    match no_index(bins, first, number_count(loads)) {
        Some(found) => Some(Reason::NoIndex(found)),
        None => Some(Reason::BinLoad(other_load(bins, &view.elements(2), loads, first)?)),
    }
}

/// Another weight or profit of a knapsack.
#[tactic(auto, unfolding(crate::specs::Reasons::Says))]
pub(crate) fn knapsack(view: &ArgumentView<'_, '_>) -> Option<Reason>
    ensures { IfSome result
        (Says builtin.FznKnapsack (assigned view.now) (arguments_of view.now)) }
{
    if !adds_up(view) {
        return None;
    }
    let numbers = &view.elements(2);
    match other_total(&view.elements(0), numbers, view.int(3)) {
        Some(total) => Some(Reason::Weight(total)),
        None => Some(Reason::Profit(other_total(&view.elements(1), numbers, view.int(4))?)),
    }
}

/// Whether no sum of a knapsack leaves 128 bits.
#[tactic(auto, unfolding(crate::specs::Rows::row_at))]
pub(crate) fn adds_up(view: &ArgumentView<'_, '_>) -> bool
    ensures { IsTrue result
        → AddsUp builtin.FznKnapsack (assigned view.now) (arguments_of view.now) }
{
    !leaves(view, Wide::Products(0, 2)) && !leaves(view, Wide::Products(1, 2))
}
