//! The subsets of a domain with few numbers.

ghost use Rattle.std.specs.Prelude.{◌≡◌, ◌⊎◌, ◌^◌, ℤ, Bool, true, false, length, IfOk, IfSome, IsSomeAnd, IsTrue, Option, Some};
ghost use Rattle.std.specs.FinSet.{contains};
ghost use Rattle.fz_bounds.specs.Bounds.{LiesIn};
ghost use Rattle.fz_bounds.specs.of_model.Meaning.{admits};
ghost use Rattle.fz_bounds.specs.of_model.of_base.Sets.{numbers_between};
ghost use Rattle.fz_bounds.specs.of_model.of_base.declared.value.Value.{Value as Held};
ghost use Rattle.fz_search.specs.Subsets.{IsAmong, first_of, kept, set_of};

use fz_store::{Domain, IntSet, Kind, Model, Value, Variable, same_kind};
use std::alloc::{AllocError, Global};

/// All subsets of at most this many numbers are tried.
const MOST_MEMBERS: usize = 9;

/// A set variable without a value, and the numbers of its domain, where they are few, and else
/// none.
#[derive(Drop)]
pub(crate) struct OpenSet {
    pub(crate) variable: usize,
    pub(crate) numbers: Vec<i64>,
}

/// The set variable of a number, with its numbers.
pub(crate) fn open_set(
    alloc: Global,
    variable: usize,
    domain: &Domain,
) -> Result<OpenSet, AllocError> {
    let mut numbers = Vec::new(alloc);
    match domain {
        Domain::All => {}
        Domain::Within(low, high) => add_few(&mut numbers, *low, *high)?,
        Domain::Among(set) => {
            for range in set.ranges(alloc)? {
                add_few(&mut numbers, range.lo, range.hi)?;
            }
        }
    }
    if numbers.len() > MOST_MEMBERS {
        numbers.clear();
    }
    Ok(OpenSet { variable, numbers })
}

/// Adds the numbers from one to another, until there are more than few.
fn add_few(numbers: &mut Vec<i64>, low: i64, high: i64) -> Result<(), AllocError> {
    for number in low..=high {
        if numbers.len() > MOST_MEMBERS {
            return Ok(());
        }
        numbers.push(number)?;
    }
    Ok(())
}

/// The subsets of some numbers with this code or a lower one. A subset leaves those numbers out
/// whose bits its code has.
#[derive(Clone, Copy)]
pub(crate) struct Subsets<'m> {
    numbers: &'m [i64],
    code: u64,
}

/// The set of some numbers.
fn listed(alloc: Global, numbers: &[i64]) -> Result<IntSet, AllocError>
    ensures { IfOk result (λ s. s ≡ set_of numbers.now) }
{
    IntSet::list(alloc, numbers).map_err(|_| AllocError)
}

/// The set of the numbers from one to another.
fn between(alloc: Global, low: &i64, high: &i64) -> Result<IntSet, AllocError>
    ensures { IfOk result (λ s. s ≡ numbers_between low.now high.now) }
{
    IntSet::range(alloc, *low, *high).map_err(|_| AllocError)
}

/// Those of the numbers whose bit the code doesn't have.
fn kept_of(alloc: Global, numbers: &[i64], code: u64) -> Result<Vec<i64>, AllocError>
    ensures { IfOk result (λ v. v.items ≡ kept numbers.now code) }
{
    let mut kept = Vec::new(alloc);
    let mut bits = code;
    for number in numbers {
        if bits % 2 == 0 {
            kept.push(*number)?;
        }
        bits /= 2;
    }
    Ok(kept)
}

impl<'m> Subsets<'m> {
    /// The one with the highest code.
    pub(crate) fn first(self, alloc: Global) -> Result<Value, AllocError>
        ensures { IfOk result (λ v. v ≡ first_of self.entry) }
    {
        let kept = kept_of(alloc, self.numbers, self.code)?;
        Ok(Value::Set(listed(alloc, &kept)?))
    }

    /// All others.
    pub(crate) fn rest(self) -> Option<Subsets<'m>>
        ensures { (o : Option Held) → IsAmong self.entry o
            → (o ≡ Some (first_of self.entry)) ⊎ IsSomeAnd result (λ s. IsAmong s o) }
    {
        if self.code == 0 {
            return None;
        }
        Some(Subsets {
            code: self.code - 1,
            ..self
        })
    }
}

/// Whether no number of a domain is missing among these.
fn lies_among(alloc: Global, domain: &Domain, numbers: &[i64]) -> Result<bool, AllocError>
    ensures { IfOk result (λ b. IsTrue b → (x : ℤ) → IsTrue (admits domain.now x)
        → contains (set_of numbers.now) x ≡ true) }
{
    let all = listed(alloc, numbers)?;
    match domain {
        Domain::All => Ok(false),
        Domain::Within(low, high) => Ok(between(alloc, low, high)?.is_subset(&all)),
        Domain::Among(own) => Ok(own.is_subset(&all)),
    }
}

/// How many subsets some numbers have, where that has 64 bits.
fn count_of(numbers: &[i64]) -> Option<u64>
    ensures { IfSome result (λ n. n ≡ 2 ^ length numbers.now) }
{
    2_u64.checked_pow(u32::try_from(numbers.len()).ok()?)
}

/// All subsets of some numbers, where the variable is a set and its domain has no others.
pub(crate) fn all_subsets<'m>(
    alloc: Global,
    variable: &Variable<'_>,
    numbers: &'m [i64],
) -> Result<Option<Subsets<'m>>, AllocError>
    ensures { IfOk result (λ r. IfSome r (λ s. (o : Option Held)
        → LiesIn variable.now.kind variable.now.domain o → IsAmong s o)) }
{
    if !same_kind(variable.kind, Kind::Set) {
        return Ok(None);
    }
    if !lies_among(alloc, &variable.domain, numbers)? {
        return Ok(None);
    }
    let Some(count) = count_of(numbers) else {
        return Ok(None);
    };
    let code = count.saturating_sub(1);
    Ok(Some(Subsets { numbers, code }))
}
