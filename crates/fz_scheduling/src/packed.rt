//! The knapsack: so many of each thing, their total weight and their total profit.
ghost use Rattle.std.specs.Prelude.{◌≡◌, ◌||◌, true, false, IfSome, IfNone};
ghost use Rattle.std.specs.List.{list_all};
ghost use Rattle.fz_kernel.specs.of_meaning.States.{leaves_128};
ghost use Rattle.fz_kernel.specs.of_meaning.Relations.{products, is_knapsack, is_natural};
ghost use Rattle.fz_kernel.specs.Views.{ints};

use crate::reading::{is_natural_at, number_count};
use fz_kernel::Elements;
use fz_kernel::arrays::sum_of_products;
use fz_kernel::indices::all_between;

/// Whether `xs` of the things have this weight and this profit; none where a partial sum of
/// products leaves signed 128 bits.
pub fn is_knapsack(
    weights: &Elements,
    profits: &Elements,
    xs: &Elements,
    weight: i64,
    profit: i64,
) -> Option<bool>
    ensures exact { IfSome result (λ holds. holds
        ≡ is_knapsack (ints weights.now) (ints profits.now) (ints xs.now) weight profit) }
    ensures within { IfSome result (λ holds. (leaves_128 (products (ints weights.now) (ints xs.now))
        || leaves_128 (products (ints profits.now) (ints xs.now))) ≡ false) }
    ensures leaves { IfNone result ((leaves_128 (products (ints weights.now) (ints xs.now))
        || leaves_128 (products (ints profits.now) (ints xs.now))) ≡ true) }
{
    let all_weight = sum_of_products(weights, xs)?;
    let all_profit = sum_of_products(profits, xs)?;
    let natural = are_natural(xs) && 0 <= weight && 0 <= profit;
    Some(natural && all_weight == i128::from(weight) && all_profit == i128::from(profit))
}

fn are_natural(xs: &Elements) -> bool
    ensures { result ≡ list_all is_natural (ints xs.now) }
{
    all_between(0, number_count(xs), |place| is_natural_at(xs, place))
}
