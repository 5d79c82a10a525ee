//! Integers: the exact results of the builtins' arithmetic.

ghost use Rattle.std.specs.Prelude.{◌≡◌, pos, ◌+ℤ◌, ◌*ℤ◌, true, false, int_div, int_rem, unsigned_abs, IfSome, IfNone};
ghost use Rattle.std.specs.Int.{int_min, int_max, int_pow};
ghost use Rattle.fz_store.specs.of_meaning.Relations.{as_number};
ghost use Rattle.fz_store.specs.of_meaning.States.{fits_128};

use num_traits::checked_pow;

/// The sum, which always fits in 128 bits.
#[inline(always)]
pub fn sum(a: i64, b: i64) -> i128
    ensures exact { result ≡ a +ℤ b }
{
    i128::from(a) + i128::from(b)
}

/// The product, which always fits in 128 bits.
#[inline(always)]
pub fn product(a: i64, b: i64) -> i128
    ensures exact { result ≡ a *ℤ b }
{
    i128::from(a) * i128::from(b)
}

/// The absolute value: up to 2^63.
#[inline(always)]
pub fn absolute(a: i64) -> i128
    ensures exact { result ≡ pos (unsigned_abs a) }
{
    i128::from(a.unsigned_abs())
}

/// The lesser of the two.
#[inline(always)]
pub fn least(a: i64, b: i64) -> i64
    ensures exact { result ≡ int_min a b }
{
    a.min(b)
}

/// The greater of the two.
#[inline(always)]
pub fn greatest(a: i64, b: i64) -> i64
    ensures exact { result ≡ int_max a b }
{
    a.max(b)
}

/// The quotient, rounded toward zero: up to 2^63. None where the divisor is 0.
#[inline(always)]
pub fn quotient(a: i64, b: i64) -> Option<i128>
    ensures exact { IfSome result (λ q. q ≡ int_div a b) }
    ensures none { IfNone result (b ≡ pos 0) }
    ensures some { IfSome result (λ q. ¬ (b ≡ pos 0)) }
{
    if b == 0 {
        return None;
    }
    Some(i128::from(a) / i128::from(b))
}

/// The remainder of the division that rounds toward zero: it has the sign of `a`. None where the
/// divisor is 0.
#[inline(always)]
pub fn remainder(a: i64, b: i64) -> Option<i128>
    ensures exact { IfSome result (λ r. r ≡ int_rem a b) }
    ensures none { IfNone result (b ≡ pos 0) }
    ensures some { IfSome result (λ r. ¬ (b ≡ pos 0)) }
{
    if b == 0 {
        return None;
    }
    Some(i128::from(a) % i128::from(b))
}

/// The power, 1 where the exponent is 0. None where it leaves signed 128 bits.
pub fn power(base: i64, exponent: u64) -> Option<i128>
    ensures exact { IfSome result (λ p. p ≡ int_pow base exponent) }
    ensures fits { IfSome result (λ p. fits_128 p ≡ true) }
    ensures leaves { IfNone result (fits_128 (int_pow base exponent) ≡ false) }
{
    checked_pow(i128::from(base), exponent as usize)
}

/// 1 for true and 0 for false.
#[inline(always)]
pub fn number_of_truth(truth: bool) -> i64
    ensures exact { result ≡ as_number truth }
{
    if truth { 1 } else { 0 }
}
