//! Whether listed numbers are all different.

ghost use Rattle.std.specs.Prelude.{◌≡◌, ◌<◌, ◌≤◌, ◌-◌, pos, not, get_or, length};
ghost use Rattle.std.specs.Ordering.{int_cmp};
ghost use Rattle.std.specs.List.Sorted.{IsSorted};
ghost use Rattle.fz_store.specs.of_meaning.Relations.{◌=ℤ◌, all_different};

use crate::indices::all_between;

/// Whether no two of the numbers are equal. It sorts them, in `n log n` steps and without memory.
pub fn all_different(numbers: &mut [i64]) -> bool
    ensures exact { result ≡ all_different numbers.old }
{
    numbers.sort_unstable();
    neighbours_differ(numbers)
}

fn neighbours_differ(sorted: &[i64]) -> bool
    requires { IsSorted int_cmp sorted.now }
    ensures { result ≡ all_different sorted.now }
{
    all_between(1, sorted.len(), |place| differ_at(sorted, place))
}

// Whether the number at an index is another than the one before it.
#[inline(always)]
fn differ_at(sorted: &[i64], place: usize) -> bool
    requires from { 1 ≤ place }
    requires in_range { place < length sorted.now }
    ensures { result ≡ not (get_or sorted.now (place - 1) (pos 0)
        =ℤ get_or sorted.now place (pos 0)) }
{
    sorted[place - 1] != sorted[place]
}
