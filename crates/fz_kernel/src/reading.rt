//! Reading one scalar.

ghost use Rattle.std.specs.Prelude.{◌≡◌, Some, option_map};
ghost use Rattle.std.specs.FinSet as sets;
ghost use Rattle.fz_kernel.specs.Given.{bool_in, int_in, set_in};

use fz_store::{IntSet, Value, number_of, truth_of};

/// Whether the arguments of a constraint can be read as its row asks: each scalar has a value of
/// the kind; or each has a value, but one is of another kind; or one has none.
#[derive(Clone, Copy, PartialEq, Eq)]
pub enum Readiness {
    Ready,
    WrongKind,
    Missing,
}

#[inline(always)]
fn set_of<'s>(value: &'s Value, empty: &'s IntSet) -> &'s IntSet
    requires { empty.now ≡ sets.empty }
    ensures { result.now ≡ set_in (Some value.now) }
{
    match value {
        Value::Set(set) => set,
        Value::Int(_) | Value::Bool(_) => empty,
    }
}

/// The number that a scalar is read as.
#[inline(always)]
pub(crate) fn int_in(value: Option<&Value>) -> i64
    ensures { result ≡ int_in (option_map (λ v. v.now) value.entry) }
{
    match value {
        Some(value) => number_of(value),
        None => 0,
    }
}

/// The Boolean that a scalar is read as.
#[inline(always)]
pub(crate) fn bool_in(value: Option<&Value>) -> bool
    ensures { result ≡ bool_in (option_map (λ v. v.now) value.entry) }
{
    match value {
        Some(value) => truth_of(value),
        None => false,
    }
}

/// The set that a scalar is read as.
#[inline(always)]
pub(crate) fn set_in<'s>(value: Option<&'s Value>, empty: &'s IntSet) -> &'s IntSet
    requires { empty.now ≡ sets.empty }
    ensures { result.now ≡ set_in (option_map (λ v. v.now) value.entry) }
{
    match value {
        Some(value) => set_of(value, empty),
        None => empty,
    }
}
