//! Domains and definitions.

ghost use Rattle.std.specs.Prelude.{◌≡◌, cond, option_map, true};
ghost use Rattle.std.specs.List.{list_all, list_any};
ghost use Rattle.std.specs.FinSet as sets;
ghost use Rattle.fz_builtins.specs.of_meaning.declared.state.State.TheVariants.{Fails};
ghost use Rattle.fz_builtins.specs.of_meaning.Meaning.{admits, inside, values};
ghost use Rattle.fz_builtins.specs.of_meaning.States.{both, is_outside, judged, judged_by, same_value};
ghost use Rattle.fz_builtins.specs.of_store.Shown.{scalar_terms};
ghost use Rattle.fz_builtins.specs.of_store.Slots.{scalar_term, slot_term};
ghost use Rattle.fz_builtins.specs.of_kernel.Given.{has_value};

use fz_store::{Domain, IntSet, Partial, Scalar, Scalars, State, Value, scalar_at};

fn judged(holds: bool) -> State
    ensures { result ≡ judged holds }
{
    if holds { State::Holds } else { State::Fails }
}

/// The state of a variable's domain, where it has this value.
pub(crate) fn of_domain(domain: &Domain, value: Option<&Value>) -> State
    ensures { result ≡ judged_by (inside domain.now) (option_map (λ v. v.now) value.entry) }
{
    match value {
        Some(value) => judged(is_inside(domain, value)),
        None => State::NoValue,
    }
}

/// The state of a definition, where its sides have these values.
pub(crate) fn of_definition(left: Option<&Value>, right: Option<&Value>) -> State
    ensures { result ≡ judged_by (λ (v, w). same_value v w)
        (both (option_map (λ v. v.now) left.entry) (option_map (λ v. v.now) right.entry)) }
{
    let Some(left) = left else {
        return State::NoValue;
    };
    match right {
        Some(right) => judged(is_same(left, right)),
        None => State::NoValue,
    }
}

/// The state of the domain of an array's elements: it fails as soon as one element lies outside.
pub(crate) fn of_elements(partial: &Partial, domain: &Domain, elements: Scalars<'_>) -> State
    ensures { result ≡ cond (list_any (is_outside partial.now domain.now)
        (scalar_terms elements.entry)) Fails
        (judged_by (λ vs. true) (values partial.now (scalar_terms elements.entry))) }
{
    if one_outside(partial, domain, &elements) {
        State::Fails
    } else if have_values(partial, &elements) {
        State::Holds
    } else {
        State::NoValue
    }
}

fn one_outside(partial: &Partial, domain: &Domain, elements: &Scalars<'_>) -> bool
    ensures { result ≡ list_any (λ s. is_outside partial.now domain.now
        (slot_term elements.now.constants.now s)) elements.now.slots.now }
{
    elements.slots.iter().any(|slot| is_outside(
        partial,
        domain,
        scalar_at(elements.constants, *slot),
    ))
}

fn is_outside(partial: &Partial, domain: &Domain, scalar: Scalar<'_>) -> bool
    ensures { result ≡ is_outside partial.now domain.now (scalar_term scalar.entry) }
{
    match scalar {
        Scalar::Variable(number) => match partial.get(number) {
            Some(value) => !is_inside(domain, value),
            None => false,
        },
        Scalar::Number(number) => !admits(domain, number),
        Scalar::Truth(_) => !matches!(domain, Domain::All),
        Scalar::Set(set) => !admits_each(domain, set),
    }
}

fn have_values(partial: &Partial, elements: &Scalars<'_>) -> bool
    ensures { result ≡ list_all (λ s. has_value partial.now
        (slot_term elements.now.constants.now s)) elements.now.slots.now }
{
    elements.slots.iter().all(|slot| has_value(partial, scalar_at(elements.constants, *slot)))
}

fn has_value(partial: &Partial, scalar: Scalar<'_>) -> bool
    ensures { result ≡ has_value partial.now (scalar_term scalar.entry) }
{
    match scalar {
        Scalar::Variable(number) => partial.has(number),
        Scalar::Number(_) | Scalar::Truth(_) | Scalar::Set(_) => true,
    }
}

fn is_same(left: &Value, right: &Value) -> bool
    ensures { result ≡ same_value left.now right.now }
{
    left.equals(right)
}

/// Whether the value lies in the domain. No Boolean lies in a domain with bounds.
#[inline]
pub(crate) fn is_inside(domain: &Domain, value: &Value) -> bool
    ensures { result ≡ inside domain.now value.now }
{
    match value {
        Value::Int(number) => admits(domain, *number),
        Value::Set(set) => admits_each(domain, set),
        Value::Bool(_) => matches!(domain, Domain::All),
    }
}

fn admits(domain: &Domain, number: i64) -> bool
    ensures { result ≡ admits domain.now number }
{
    match domain {
        Domain::All => true,
        Domain::Within(low, high) => *low <= number && number <= *high,
        Domain::Among(set) => set.contains(number),
    }
}

#[inline]
pub(crate) fn admits_each(domain: &Domain, set: &IntSet) -> bool
    ensures { result ≡ list_all (admits domain.now) (sets.items set.now) }
{
    match domain {
        Domain::All => true,
        Domain::Within(low, high) => set.within(*low, *high),
        Domain::Among(others) => set.is_subset(others),
    }
}
