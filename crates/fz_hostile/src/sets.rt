//! Calls that make, combine, copy and examine sets and values.

use crate::outside::{file, tell};
use fz_base::{IntSet, SetError, Value};
use fz_syntax::{LiteralKind, Printed, PrintedValue, read_items};
use std::alloc::Global;
use std::mem::size_of;

// Tables of values are read for each constraint of each block, so a value has to be small.
const _: () = prove!(size_of::<IntSet>() == 16);

const _: () = prove!(size_of::<Value>() == 24);

const _: () = prove!(size_of::<Option<Value>>() == 32);

/// Makes a call on the sets that the first two items of a text print.
pub fn make_call(rt: &HostRuntime, call: &str, operands: &[String]) -> Option<()> {
    let text = file(rt, operands, 0)?;
    let Ok(items) = read_items(rt.alloc(), &text) else {
        return None;
    };
    let first = literal(&items, 0)?;
    let second = literal(&items, 1)?;
    match call {
        "make" => tell_made(rt, first),
        "copy_value" => copy_value(rt, first),
        "ranges" => tell_ranges(rt, first),
        "ask" => ask(rt, first, second),
        "compare" => compare(rt, first, second),
        _ => combine(rt, call, first, second),
    }
}

/// The literal that the item at an index prints.
fn literal<'a>(items: &'a [Printed<'_>], place: usize) -> Option<&'a LiteralKind> {
    let item = items.get(place)?;
    match &item.value {
        PrintedValue::One(literal) => Some(&literal.what),
        PrintedValue::Array { .. } => None,
    }
}

/// The set that a literal stands for: `range` makes that of a range, `list` that of listed numbers.
fn made(alloc: Global, literal: &LiteralKind) -> Result<IntSet, SetError> {
    match literal {
        LiteralKind::Range(lo, hi) => IntSet::range(alloc, *lo, *hi),
        LiteralKind::Braces(numbers) => IntSet::list(alloc, numbers),
        _ => IntSet::list(alloc, &[]),
    }
}

fn tell_made(rt: &HostRuntime, literal: &LiteralKind) -> Option<()> {
    for _ in 0..2 {
        let set = made(rt.alloc(), literal);
        tell(rt, &set);
        if set.is_ok() {
            break;
        }
    }
    Some(())
}

/// Prints copies of a value, and then the value.
fn copy_value(rt: &HostRuntime, literal: &LiteralKind) -> Option<()> {
    let Ok(set) = made(rt.alloc(), literal) else {
        return None;
    };
    let value = Value::Set(set);
    for _ in 0..2 {
        let copy = value.copy(rt.alloc());
        tell(rt, &copy);
        if copy.is_ok() {
            break;
        }
    }
    tell(rt, &value);
    Some(())
}

/// Prints the ranges of a set, and then the set.
fn tell_ranges(rt: &HostRuntime, literal: &LiteralKind) -> Option<()> {
    let Ok(set) = made(rt.alloc(), literal) else {
        return None;
    };
    for _ in 0..2 {
        let ranges = set.ranges(rt.alloc());
        tell(rt, &ranges);
        if ranges.is_ok() {
            break;
        }
    }
    tell(rt, &set);
    Some(())
}

fn combined(alloc: Global, call: &str, a: &IntSet, b: &IntSet) -> Result<IntSet, SetError> {
    match call {
        "union" => a.union(alloc, b),
        "intersect" => a.intersect(alloc, b),
        "minus" => a.minus(alloc, b),
        "symdiff" => a.symdiff(alloc, b),
        _ => Ok(a.copy(alloc)?),
    }
}

/// Prints the result of an operation on two sets, and then the two.
fn combine(rt: &HostRuntime, call: &str, first: &LiteralKind, second: &LiteralKind) -> Option<()> {
    let Ok(a) = made(rt.alloc(), first) else {
        return None;
    };
    let Ok(b) = made(rt.alloc(), second) else {
        return None;
    };
    for _ in 0..2 {
        let set = combined(rt.alloc(), call, &a, &b);
        tell(rt, &set);
        if set.is_ok() {
            break;
        }
    }
    tell(rt, &a);
    tell(rt, &b);
    Some(())
}

/// Prints the ranges of the result of each operation on two sets.
fn compare(rt: &HostRuntime, first: &LiteralKind, second: &LiteralKind) -> Option<()> {
    let a = made(rt.alloc(), first).ok()?;
    let b = made(rt.alloc(), second).ok()?;
    for call in ["union", "intersect", "minus", "symdiff"] {
        let set = combined(rt.alloc(), call, &a, &b).ok()?;
        tell(rt, &set.ranges(rt.alloc()));
    }
    Some(())
}

/// Prints the answers of the calls that examine sets and values.
fn ask(rt: &HostRuntime, first: &LiteralKind, second: &LiteralKind) -> Option<()> {
    let Ok(a) = made(rt.alloc(), first) else {
        return None;
    };
    let Ok(b) = made(rt.alloc(), second) else {
        return None;
    };
    tell(rt, &(a.contains(3), a.len(), a.only(), a.within(-9, 9)));
    tell(
        rt,
        &(
            a.is_subset(&b),
            a.equals(&b),
            a.is_union(&a, &b),
            b.is_intersection(&a, &b),
        ),
    );
    tell(
        rt,
        &(a.is_difference(&a, &b), b.is_symmetric_difference(&a, &b)),
    );
    let one = Value::Set(a);
    let other = Value::Set(b);
    tell(rt, &(one.equals(&other), one.equals(&Value::Bool(true))));
    Some(())
}
