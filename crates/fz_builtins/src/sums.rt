//! The rows whose numbers are computed in 128 bits.

ghost use Rattle.std.specs.Prelude.{◌≡◌, ◌||◌, int_le, not};
ghost use Rattle.fz_globals.specs.of_meaning.Relations.{◌=ℤ◌, products, total, is_knapsack};
ghost use Rattle.fz_globals.specs.of_meaning.States.{leaves_128};
ghost use Rattle.fz_globals.specs.of_kernel.Given.{read_leaves, read_unknown};
ghost use Rattle.fz_globals.specs.of_kernel.Views.{arguments_of, assigned};
ghost use Rattle.fz_builtins.specs.Outcomes.{sum_outcome};
ghost use Rattle.fz_builtins.specs.Readings.{int, ints};

use crate::outcome::Outcome;
use fz_kernel::ArgumentView;
use fz_kernel::arrays::sum_of_products;
use fz_kernel::numbers::power;
use fz_scheduling::packed::is_knapsack;
use fz_store::Wide;

/// Whether the sum of products is the third argument.
#[inline(always)]
pub(crate) fn int_lin_eq(view: &ArgumentView<'_, '_>) -> Outcome
    ensures { result ≡ sum_outcome (leaves_128 (products (ints view.now 0) (ints view.now 1)))
        (total (products (ints view.now 0) (ints view.now 1)) =ℤ int view.now 2) }
{
    match sum_of_products(&view.elements(0), &view.elements(1)) {
        Some(sum) => Outcome::Truth(sum == i128::from(view.int(2))),
        None => Outcome::TooLarge,
    }
}

/// Whether the sum of products is not the third argument.
#[inline(always)]
pub(crate) fn int_lin_ne(view: &ArgumentView<'_, '_>) -> Outcome
    ensures { result ≡ sum_outcome (leaves_128 (products (ints view.now 0) (ints view.now 1)))
        (not (total (products (ints view.now 0) (ints view.now 1)) =ℤ int view.now 2)) }
{
    match sum_of_products(&view.elements(0), &view.elements(1)) {
        Some(sum) => Outcome::Truth(sum != i128::from(view.int(2))),
        None => Outcome::TooLarge,
    }
}

/// Whether the sum of products is at most the third argument.
#[inline(always)]
pub(crate) fn int_lin_le(view: &ArgumentView<'_, '_>) -> Outcome
    ensures { result ≡ sum_outcome (leaves_128 (products (ints view.now 0) (ints view.now 1)))
        (int_le (total (products (ints view.now 0) (ints view.now 1))) (int view.now 2)) }
{
    match sum_of_products(&view.elements(0), &view.elements(1)) {
        Some(sum) => Outcome::Truth(sum <= i128::from(view.int(2))),
        None => Outcome::TooLarge,
    }
}

/// Whether the weight and the profit of the things are the last two arguments.
pub(crate) fn knapsack(view: &ArgumentView<'_, '_>) -> Outcome
    ensures { result ≡ sum_outcome (leaves_128 (products (ints view.now 0) (ints view.now 2))
        || leaves_128 (products (ints view.now 1) (ints view.now 2)))
        (is_knapsack (ints view.now 0) (ints view.now 1) (ints view.now 2) (int view.now 3)
        (int view.now 4)) }
{
    let (weights, profits, numbers) = (view.elements(0), view.elements(1), view.elements(2));
    match is_knapsack(&weights, &profits, &numbers, view.int(3), view.int(4)) {
        Some(holds) => Outcome::Truth(holds),
        None => Outcome::TooLarge,
    }
}

/// Whether a number that a row computes leaves 128 bits or isn't known.
pub fn leaves(view: &ArgumentView<'_, '_>, wide: Wide) -> bool
    ensures { result ≡ read_leaves (assigned view.now) (arguments_of view.now) wide }
{
    match wide {
        Wide::Products(a, b) => sum_of_products(&view.elements(a), &view.elements(b)).is_none(),
        Wide::Power(base, exponent) => {
            is_unknown(view, wide)
                || power(view.int(base), view.int(exponent).unsigned_abs()).is_none()
        }
    }
}

/// Whether it is a power that isn't known, since its exponent is negative.
pub fn is_unknown(view: &ArgumentView<'_, '_>, wide: Wide) -> bool
    ensures { result ≡ read_unknown (assigned view.now) (arguments_of view.now) wide }
{
    match wide {
        Wide::Products(_, _) => false,
        Wide::Power(_, exponent) => view.int(exponent) < 0,
    }
}
