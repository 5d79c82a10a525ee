//! Values, and what is fixed, as parts of a text.

use crate::explained::{FIRST_VARIABLES, MOST_VARIABLES};
use crate::fixed::Fixing;
use crate::parts::{Owner, Phrase};
use fz_places::{IntSet, Range, Value};
use std::alloc::{AllocError, Global};

/// The most ranges of a set that are shown.
pub const MOST_RANGES: usize = 8;

/// Adds a value behind words.
pub(crate) fn push_value(
    phrase: &mut Phrase,
    front: &str,
    owner: Option<Owner<'_>>,
    value: &Value,
) -> Result<(), AllocError> {
    phrase.words(front)?;
    match value {
        Value::Int(number) => phrase.value(owner, *number),
        Value::Bool(truth) => phrase.truth(owner, *truth),
        Value::Set(set) => push_set(phrase, owner, set),
    }
}

pub(crate) fn push_set(
    phrase: &mut Phrase,
    owner: Option<Owner<'_>>,
    set: &IntSet,
) -> Result<(), AllocError> {
    let ranges = set.ranges(*phrase.parts.allocator())?;
    push_ranges(phrase, owner, &ranges)
}

/// Adds the ranges of a set: of more than eight the first eight, and how many are left out.
fn push_ranges(
    phrase: &mut Phrase,
    owner: Option<Owner<'_>>,
    ranges: &[Range],
) -> Result<(), AllocError> {
    phrase.words("{")?;
    for (place, range) in ranges.iter().take(MOST_RANGES).enumerate() {
        let comma = if place > 0 { "," } else { "" };
        let Range { lo, hi } = *range;
        phrase.words(comma)?;
        push_range(phrase, owner, lo, hi)?;
    }
    let left_out = ranges.len().saturating_sub(MOST_RANGES);
    if left_out > 0 {
        phrase.words(",... and ")?;
        phrase.number(left_out)?;
        phrase.words(" more")?;
    }
    phrase.words("}")
}

/// Adds the numbers from one to another, as `1..3`, or one number.
pub(crate) fn push_range(
    phrase: &mut Phrase,
    owner: Option<Owner<'_>>,
    low: i64,
    high: i64,
) -> Result<(), AllocError> {
    if low == high {
        return phrase.value(owner, low);
    }
    push_ends(phrase, owner, low, high)
}

/// Adds the first and the last number of a range.
pub(crate) fn push_ends(
    phrase: &mut Phrase,
    owner: Option<Owner<'_>>,
    low: i64,
    high: i64,
) -> Result<(), AllocError> {
    phrase.value(owner, low)?;
    phrase.words("..")?;
    phrase.value(owner, high)
}

/// The value of what has this name: of a parameter, or a list of those of an array. Of more than
/// twelve the first eight, how many are left out, and the last four.
pub(crate) fn fixing_phrase(
    alloc: Global,
    name: &[u8],
    fixing: &Fixing,
) -> Result<Phrase, AllocError> {
    let mut phrase = Phrase::new(alloc);
    match (fixing.is_array, fixing.values.first()) {
        (false, Some(value)) => push_value(&mut phrase, "", Some(Owner::of(name)), value)?,
        _ => push_elements(&mut phrase, name, &fixing.values)?,
    }
    Ok(phrase)
}

fn push_elements(phrase: &mut Phrase, name: &[u8], values: &[Value]) -> Result<(), AllocError> {
    phrase.words("[")?;
    let left_out = values.len().saturating_sub(MOST_VARIABLES);
    for (place, value) in values.iter().enumerate() {
        let comma = if place > 0 { "," } else { "" };
        if left_out > 0 && place == FIRST_VARIABLES {
            phrase.words(comma)?;
            phrase.words("... and ")?;
            phrase.number(left_out)?;
            phrase.words(" more ...")?;
        }
        if place < FIRST_VARIABLES || place >= FIRST_VARIABLES.saturating_add(left_out) {
            push_value(phrase, comma, Some(Owner::at(name, place)), value)?;
        }
    }
    phrase.words("]")
}
