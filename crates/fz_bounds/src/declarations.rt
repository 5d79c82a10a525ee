//! Domains, definitions and elements of arrays that cannot hold within bounds.

ghost use Rattle.std.specs.Prelude.{◌≡◌, ◌≤ℤ◌, ◌&&◌, ℕ, ℤ, List, IfSome, IsTrue, Some, false, int_le};
ghost use Rattle.std.specs.FinSet.{contains};
ghost use Rattle.fz_model.specs.of_base.declared.value.Value.{Value as Held};
ghost use Rattle.fz_model.specs.Meaning.{Assignment, Variable, admits, inside, value, value_at, whole};
ghost use Rattle.fz_model.specs.Meaning.Point.{ArrayPoint, DefinitionPoint};
ghost use Rattle.fz_model.specs.Shown.{scalar_terms};
ghost use Rattle.fz_model.specs.Slots.{scalar_term};
ghost use Rattle.fz_bounds.specs.Bounds.{IsInside, NeverHolds, number_as};
ghost use Rattle.fz_bounds.specs.Decided.{Decides};
ghost use Rattle.fz_bounds.specs.Ends.{LiesAt};

use crate::bounds::Bounds;
use crate::ends::{KindEnds, ends_between};
use crate::outlook::Outlook;
use fz_store::{Domain, IntSet, Kind, Scalar, Scalars, Term, same_kind};

/// So many numbers of a range are looked for in a set with gaps.
const TRIED: usize = 1_000;

/// Whether a set has none of the numbers from one to another, found one by one.
fn has_none_of_few(numbers: &IntSet, low: i64, high: i64) -> bool
    ensures { IsTrue result → (n : ℤ) → low ≤ℤ n → n ≤ℤ high → contains numbers.now n ≡ false }
{
    let mut number = low;
    for _ in 0..TRIED {
        if number > high {
            return true;
        }
        if numbers.contains(number) {
            return false;
        }
        number = number.saturating_add(1);
    }
    false
}

/// Whether all numbers of a set are above a number.
fn are_above(numbers: &IntSet, high: i64) -> bool
    ensures { IsTrue result → (n : ℤ) → n ≤ℤ high → contains numbers.now n ≡ false }
{
    if high < i64::MAX && numbers.within(high + 1, i64::MAX) {
        return true;
    }
    false
}

/// Whether all are below.
fn are_below(numbers: &IntSet, low: i64) -> bool
    ensures { IsTrue result → (n : ℤ) → low ≤ℤ n → contains numbers.now n ≡ false }
{
    if i64::MIN < low && numbers.within(i64::MIN, low - 1) {
        return true;
    }
    false
}

/// The same, where all its numbers are greater, or all are less, or there are few to look for.
fn has_none(numbers: &IntSet, low: i64, high: i64) -> bool
    ensures { IsTrue result → (n : ℤ) → low ≤ℤ n → n ≤ℤ high → contains numbers.now n ≡ false }
{
    if are_above(numbers, high) {
        return true;
    }
    if are_below(numbers, low) {
        return true;
    }
    has_none_of_few(numbers, low, high)
}

/// Whether a number from one to another is in a set.
pub(crate) fn membership(numbers: &IntSet, low: i64, high: i64) -> Outlook
    ensures { (n : ℤ) → low ≤ℤ n → n ≤ℤ high → Decides result (contains numbers.now n) }
{
    if has_none(numbers, low, high) {
        return Outlook::Never;
    }
    if high <= low && numbers.contains(low) {
        return Outlook::Always;
    }
    Outlook::Open
}

/// Whether one range has none of the numbers of another.
fn have_none(least: i64, greatest: i64, low: i64, high: i64) -> bool
    ensures { IsTrue result → (n : ℤ) → low ≤ℤ n → n ≤ℤ high
        → (int_le least n && int_le n greatest) ≡ false }
{
    if high < least {
        return true;
    }
    greatest < low
}

/// Whether a domain admits none of these numbers.
fn admits_none(domain: &Domain, low: i64, high: i64) -> bool
    ensures { IsTrue result → (n : ℤ) → low ≤ℤ n → n ≤ℤ high → admits domain.now n ≡ false }
{
    match domain {
        Domain::All => false,
        Domain::Within(least, greatest) => have_none(*least, *greatest, low, high),
        Domain::Among(numbers) => has_none(numbers, low, high),
    }
}

/// Whether a variable has no value in a domain.
pub(crate) fn lies_outside(domain: &Domain, number: usize, bounds: &Bounds) -> bool
    ensures { IsTrue result → (A : Assignment) → IsInside bounds.now A → (v : Held)
        → value_at (whole A) number ≡ Some v → inside domain.now v ≡ false }
{
    let Some(ends) = bounds.ends(number) else {
        return false;
    };
    match ends.kind {
        Kind::Bool => false,
        Kind::Int => admits_none(domain, ends.low, ends.high),
        Kind::Set => false,
    }
}

/// The bounds of a scalar, where they are numbers or Booleans.
fn ends_of_term(term: &Term, bounds: &Bounds) -> Option<KindEnds>
    ensures { IfSome result (LiesAt bounds.now term.now) }
{
    match term {
        Term::Var(number) => bounds.ends(*number),
        Term::Fixed(value) => ends_between(value, value),
    }
}

/// Whether no integer lies within both.
fn are_apart(one: KindEnds, other: KindEnds) -> bool
    ensures { IsTrue result → (a b : ℤ) → one.low ≤ℤ a → a ≤ℤ one.high → other.low ≤ℤ b
        → b ≤ℤ other.high → number_as one.kind a ≡ number_as other.kind b → ⊥ }
{
    if !same_kind(one.kind, Kind::Int) || !same_kind(other.kind, Kind::Int) {
        return false;
    }
    if one.high < other.low {
        return true;
    }
    other.high < one.low
}

/// Whether the two sides of a definition have no value in common.
pub(crate) fn definition_fails(number: usize, term: &Term, bounds: &Bounds) -> bool
    ensures { IsTrue result → (x : Variable)
        → NeverHolds bounds.now (DefinitionPoint x number term.now) }
{
    let Some(one) = bounds.ends(number) else {
        return false;
    };
    let Some(other) = ends_of_term(term, bounds) else {
        return false;
    };
    are_apart(one, other)
}

/// Whether an element has no value in the domain of an array.
fn element_fails(domain: &Domain, element: Scalar<'_>, bounds: &Bounds) -> bool
    ensures { IsTrue result → (A : Assignment) → IsInside bounds.now A → (v : Held)
        → value (whole A) (scalar_term element.entry) ≡ Some v → inside domain.now v ≡ false }
{
    match element {
        Scalar::Variable(number) => lies_outside(domain, number, bounds),
        Scalar::Number(_) | Scalar::Truth(_) | Scalar::Set(_) => false,
    }
}

/// Whether one of the elements of an array has no value in the array's domain.
pub(crate) fn elements_fail(domain: &Domain, elements: &Scalars<'_>, bounds: &Bounds) -> bool
    ensures { IsTrue result → (name : List ℕ)
        → NeverHolds bounds.now (ArrayPoint name domain.now (scalar_terms elements.now)) }
{
    for place in 0..elements.len() {
        let Some(element) = elements.get(place) else {
            return false;
        };
        if element_fails(domain, element, bounds) {
            return true;
        }
    }
    false
}
