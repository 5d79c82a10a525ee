//! Numbers in ascending order, and what binary search finds among them.

ghost use Rattle.std.specs.Prelude.{◌≡◌, length, int_le, int_lt, IfOk};
ghost use Rattle.std.specs.Ordering.{int_cmp};
ghost use Rattle.std.specs.List.{filter};
ghost use Rattle.std.specs.List.Sorted.{IsSorted, IsPermutation};
ghost use Rattle.fz_kernel.specs.of_meaning.Relations.{is_among, count_of, values_of};
ghost use Rattle.fz_kernel.specs.Views.{ints};

use fz_kernel::Elements;
use fz_kernel::arrays::numbers_of;
use std::alloc::{AllocError, Global};

/// The elements in ascending order.
pub fn numbers_in_order(alloc: Global, elements: &Elements) -> Result<Vec<i64>, AllocError>
    ensures same { IfOk result (λ v. IsPermutation (ints elements.now) v.items) }
    ensures in_order { IfOk result (λ v. IsSorted int_cmp v.items) }
{
    let mut numbers = numbers_of(alloc, elements)?;
    numbers.sort_unstable();
    Ok(numbers)
}

/// How often the value is listed.
pub fn count_in_order(sorted: &[i64], value: i64) -> i128
    requires { IsSorted int_cmp sorted.now }
    ensures { result ≡ count_of sorted.now value }
{
    (number_up_to(sorted, value) - number_below(sorted, value)) as i128
}

fn number_below(sorted: &[i64], value: i64) -> usize
    requires { IsSorted int_cmp sorted.now }
    ensures { result ≡ length (filter (λ x. int_lt x value) sorted.now) }
{
    sorted.partition_point(
        |number: &i64| -> bool
            ensures { result ≡ int_lt number.now value }
        { *number < value },
    )
}

fn number_up_to(sorted: &[i64], value: i64) -> usize
    requires { IsSorted int_cmp sorted.now }
    ensures { result ≡ length (filter (λ x. int_le x value) sorted.now) }
{
    sorted.partition_point(
        |number: &i64| -> bool
            ensures { result ≡ int_le number.now value }
        { *number <= value },
    )
}

/// Whether the value is listed.
pub fn stands_in_order(sorted: &[i64], value: i64) -> bool
    requires { IsSorted int_cmp sorted.now }
    ensures { result ≡ is_among value sorted.now }
{
    sorted.binary_search(&value).is_ok()
}

/// How many different values are listed.
pub fn values_in_order(sorted: &[i64]) -> usize
    requires { IsSorted int_cmp sorted.now }
    ensures { result ≡ length (values_of sorted.now) }
{
    if sorted.is_empty() {
        return 0;
    }
    let mut count: usize = 1;
    for place in 1..sorted.len() {
        if sorted[place - 1] != sorted[place] {
            count += 1;
        }
    }
    count
}
