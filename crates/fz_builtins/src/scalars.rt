//! Rows over scalars that take more than an expression. Where either of two arguments may be the
//! result, the other one says it.

ghost use Rattle.std.specs.Prelude.{◌≡◌, ◌-ℤ◌, Bool, not, pos, ◌&&◌, ◌||◌};
ghost use Rattle.std.specs.FinSet as sets;
ghost use Rattle.std.specs.Int.{int_min, int_max};
ghost use Rattle.fz_globals.specs.of_meaning.Builtins.{row_at};
ghost use Rattle.fz_globals.specs.of_meaning.Relations.{◌=ℤ◌, ◌=ᴮ◌, as_number};
ghost use Rattle.fz_globals.specs.of_meaning.declared.builtin.Builtin.TheVariants.{Bool2Int, BoolEq, BoolNot, IntEq, IntPow, SetEq};
ghost use Rattle.fz_globals.specs.of_kernel.Views.{arguments_of, assigned};
ghost use Rattle.fz_builtins.specs.Readings.{int, numbers, truth};
ghost use Rattle.fz_builtins.specs.Said.{IsSaid, is_result};

use crate::outcome::Outcome;
use crate::said::Said;
use fz_kernel::ArgumentView;
use fz_kernel::numbers::{greatest, least, number_of_truth, power};

/// Either number is the other one.
#[inline(always)]
pub(crate) fn int_eq<'s>(view: &ArgumentView<'s, '_>, first: bool) -> Said<'s>
    ensures { IsSaid (row_at IntEq) first (assigned view.now) (arguments_of view.now) result }
{
    if first {
        Said::Number(0, Some(i128::from(view.int(1))))
    } else {
        Said::Number(1, Some(i128::from(view.int(0))))
    }
}

/// The first less the second.
#[inline(always)]
pub(crate) fn int_minus(view: &ArgumentView<'_, '_>) -> i128
    ensures { result ≡ int view.now 0 -ℤ int view.now 1 }
{
    i128::from(view.int(0)) - i128::from(view.int(1))
}

/// The number with the other sign.
#[inline(always)]
pub(crate) fn int_negate(view: &ArgumentView<'_, '_>) -> i128
    ensures { result ≡ pos 0 -ℤ int view.now 0 }
{
    0 - i128::from(view.int(0))
}

/// The lesser of the numbers.
#[inline(always)]
pub(crate) fn int_min(view: &ArgumentView<'_, '_>) -> i128
    ensures { result ≡ int_min (int view.now 0) (int view.now 1) }
{
    i128::from(least(view.int(0), view.int(1)))
}

/// The greater of the numbers.
#[inline(always)]
pub(crate) fn int_max(view: &ArgumentView<'_, '_>) -> i128
    ensures { result ≡ int_max (int view.now 0) (int view.now 1) }
{
    i128::from(greatest(view.int(0), view.int(1)))
}

/// The third is the power of the first by the second, which isn't known where the second is
/// negative.
pub(crate) fn int_pow<'s>(view: &ArgumentView<'s, '_>, first: bool) -> Said<'s>
    ensures { IsSaid (row_at IntPow) first (assigned view.now) (arguments_of view.now) result }
{
    let exponent = view.int(1);
    if exponent < 0 {
        return Said::Whether(Outcome::Unknown);
    }
    match power(view.int(0), exponent.unsigned_abs()) {
        Some(power) => Said::Number(2, Some(power)),
        None => Said::Whether(Outcome::TooLarge),
    }
}

/// Either Boolean is the other one.
#[inline(always)]
pub(crate) fn bool_eq<'s>(view: &ArgumentView<'s, '_>, first: bool) -> Said<'s>
    ensures { IsSaid (row_at BoolEq) first (assigned view.now) (arguments_of view.now) result }
{
    if first {
        Said::Boolean(0, Some(view.truth(1)))
    } else {
        Said::Boolean(1, Some(view.truth(0)))
    }
}

/// Whether the second is true where the first is.
#[inline(always)]
pub(crate) fn implies(a: bool, b: bool) -> bool
    ensures { result ≡ (not a || b) }
{
    !a || b
}

/// Whether the first is false and the second true.
#[inline(always)]
pub(crate) fn is_below(a: bool, b: bool) -> bool
    ensures { result ≡ (not a && b) }
{
    !a && b
}

/// Either Boolean is what the other one isn't.
#[inline(always)]
pub(crate) fn bool_not<'s>(view: &ArgumentView<'s, '_>, first: bool) -> Said<'s>
    ensures { IsSaid (row_at BoolNot) first (assigned view.now) (arguments_of view.now) result }
{
    if first {
        Said::Boolean(0, Some(!view.truth(1)))
    } else {
        Said::Boolean(1, Some(!view.truth(0)))
    }
}

/// Whether both are true.
#[inline(always)]
pub(crate) fn bool_and(view: &ArgumentView<'_, '_>) -> bool
    ensures { result ≡ (truth view.now 0 && truth view.now 1) }
{
    view.truth(0) && view.truth(1)
}

/// Whether one of them is true.
#[inline(always)]
pub(crate) fn bool_or(view: &ArgumentView<'_, '_>) -> bool
    ensures { result ≡ (truth view.now 0 || truth view.now 1) }
{
    view.truth(0) || view.truth(1)
}

/// The Boolean is the one that the number stands for, or the number stands for the Boolean.
#[inline(always)]
pub(crate) fn bool2int<'s>(view: &ArgumentView<'s, '_>, first: bool) -> Said<'s>
    ensures { IsSaid (row_at Bool2Int) first (assigned view.now) (arguments_of view.now) result }
{
    if first {
        Said::Boolean(0, truth_of(view.int(1)))
    } else {
        Said::Number(1, Some(i128::from(number_of_truth(view.truth(0)))))
    }
}

// The Boolean that a number stands for: none where it is neither 0 nor 1.
#[inline(always)]
fn truth_of(number: i64) -> Option<bool>
    ensures { (a : Bool) → (number =ℤ as_number a) ≡ is_result ◌=ᴮ◌ result a }
{
    match number {
        0 => Some(false),
        1 => Some(true),
        _ => None,
    }
}

/// Either set is the other one.
#[inline(always)]
pub(crate) fn set_eq<'s>(view: &ArgumentView<'s, '_>, first: bool) -> Said<'s>
    ensures { IsSaid (row_at SetEq) first (assigned view.now) (arguments_of view.now) result }
{
    if first {
        Said::Given(0, Some(view.set(1)))
    } else {
        Said::Given(1, Some(view.set(0)))
    }
}

/// How many elements the set has.
pub(crate) fn set_card(view: &ArgumentView<'_, '_>) -> i128
    ensures { result ≡ pos (sets.len (numbers view.now 0)) }
{
    view.set(0).len() as i128
}
