//! Domains and definitions within bounds.

ghost use Rattle.std.specs.Prelude.{◌≡◌, ℤ, int_le, IfSome, IsTrue};
ghost use Rattle.fz_model.specs.of_base.declared.value.Value.{Value as Held};
ghost use Rattle.fz_model.specs.of_base.Elements.{LiesWithin};
ghost use Rattle.fz_model.specs.Relations.{kind_of};
ghost use Rattle.fz_model.specs.Meaning.{admits, inside};
ghost use Rattle.fz_bounds.specs.Bounds.{is_at_most};

use fz_store::{Domain, IntSet, Kind, Value};

/// The number in the middle between two.
fn middle(low: i64, high: i64) -> i64 {
    (low >> 1)
        .saturating_add(high >> 1)
        .saturating_add(low & high & 1)
}

/// The least number of a set, found by binary search.
fn least_of(numbers: &IntSet) -> i64 {
    let mut low = i64::MIN;
    let mut high = i64::MAX;
    for _ in 0..64 {
        let above = middle(low, high).saturating_add(1);
        if numbers.within(above, i64::MAX) {
            low = above;
        } else {
            high = above.saturating_sub(1);
        }
    }
    low
}

/// The greatest number of a set.
fn greatest_of(numbers: &IntSet) -> i64 {
    let mut low = i64::MIN;
    let mut high = i64::MAX;
    for _ in 0..64 {
        let half = middle(low, high);
        if numbers.within(i64::MIN, half) {
            high = half;
        } else {
            low = half.saturating_add(1);
        }
    }
    high
}

/// The bounds of what a domain admits, where there are some.
pub(crate) fn ends_of(kind: Kind, domain: &Domain) -> Option<(Value, Value)>
    ensures { IfSome result (λ e. (v : Held) → kind_of v ≡ kind → IsTrue (inside domain.now v)
        → IsTrue (is_at_most e.0 v) × IsTrue (is_at_most v e.1)) }
{
    match kind {
        Kind::Bool => Some((Value::Bool(false), Value::Bool(true))),
        Kind::Int => {
            let (low, high) = numbers_of(domain)?;
            Some((Value::Int(low), Value::Int(high)))
        }
        Kind::Set => None,
    }
}

/// The bounds of the numbers of a domain.
fn numbers_of(domain: &Domain) -> Option<(i64, i64)>
    ensures { IfSome result (λ e. (n : ℤ) → IsTrue (admits domain.now n)
        → IsTrue (int_le e.0 n) × IsTrue (int_le n e.1)) }
{
    match domain {
        Domain::All => None,
        Domain::Within(low, high) => Some((*low, *high)),
        Domain::Among(numbers) => ends_of_set(numbers),
    }
}

/// The least and the greatest number of a set.
fn ends_of_set(numbers: &IntSet) -> Option<(i64, i64)>
    ensures { IfSome result (λ e. LiesWithin e.0 e.1 numbers.now) }
{
    let low = least_of(numbers);
    let high = greatest_of(numbers);
    if numbers.within(low, high) {
        Some((low, high))
    } else {
        None
    }
}
