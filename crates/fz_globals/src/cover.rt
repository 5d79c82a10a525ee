//! How often each value of a cover occurs, and whether all elements are values of it.

ghost use Rattle.std.specs.Prelude.{◌≡◌, int_le, IfOk};
ghost use Rattle.std.specs.Ordering.{int_cmp};
ghost use Rattle.std.specs.List.{list_all};
ghost use Rattle.std.specs.List.Sorted.{IsSorted};
ghost use Rattle.fz_kernel.specs.of_meaning.Relations.{◌=ℤ◌, is_among, all_both, count_of, counts_are, counts_lie, is_closed};
ghost use Rattle.fz_kernel.specs.Views.{ints};

use crate::ordered::{count_in_order, numbers_in_order, stands_in_order};
use crate::testing::{both_pass, numbers_pass};
use fz_kernel::Elements;
use std::alloc::{AllocError, Global};

/// Whether each value of the cover occurs as often as its number says.
pub fn counts_are(
    alloc: Global,
    elements: &Elements,
    cover: &Elements,
    counts: &Elements,
) -> Result<bool, AllocError>
    ensures exact { IfOk result (λ r. r
        ≡ counts_are (ints elements.now) (ints cover.now) (ints counts.now)) }
{
    let numbers = numbers_in_order(alloc, elements)?;
    Ok(come_as_often(&numbers, cover, counts))
}

/// Whether each value of the cover occurs as often as its bounds allow.
pub fn counts_lie(
    alloc: Global,
    elements: &Elements,
    cover: &Elements,
    least: &Elements,
    most: &Elements,
) -> Result<bool, AllocError>
    ensures exact { IfOk result (λ r. r
        ≡ counts_lie (ints elements.now) (ints cover.now) (ints least.now) (ints most.now)) }
{
    let numbers = numbers_in_order(alloc, elements)?;
    Ok(come_within(&numbers, cover, least, most))
}

/// Whether each element is a value of the cover.
pub fn is_closed(alloc: Global, elements: &Elements, cover: &Elements) -> Result<bool, AllocError>
    ensures exact { IfOk result (λ r. r ≡ is_closed (ints elements.now) (ints cover.now)) }
{
    let values = numbers_in_order(alloc, cover)?;
    Ok(all_stand_in(&values, elements))
}

fn come_as_often(sorted: &[i64], cover: &Elements, counts: &Elements) -> bool
    requires { IsSorted int_cmp sorted.now }
    ensures { result ≡ counts_are sorted.now (ints cover.now) (ints counts.now) }
{
    both_pass(cover, counts, |value, count| {
        count_in_order(sorted, value) == i128::from(count)
    })
}

fn come_within(sorted: &[i64], cover: &Elements, least: &Elements, most: &Elements) -> bool
    requires { IsSorted int_cmp sorted.now }
    ensures { result ≡ counts_lie sorted.now (ints cover.now) (ints least.now) (ints most.now) }
{
    let enough = both_pass(cover, least, |value, count| {
        i128::from(count) <= count_in_order(sorted, value)
    });
    enough
        && both_pass(cover, most, |value, count| {
            count_in_order(sorted, value) <= i128::from(count)
        })
}

fn all_stand_in(sorted: &[i64], elements: &Elements) -> bool
    requires { IsSorted int_cmp sorted.now }
    ensures { result ≡ list_all (λ x. is_among x sorted.now) (ints elements.now) }
{
    numbers_pass(0, elements, |_, element| stands_in_order(sorted, element))
}
