//! Tests of the elements of arrays: each alone, each with the next one, or of two arrays side by
//! side.
ghost use Rattle.std.specs.Prelude.{◌≡◌, ◌<◌, ◌≤◌, ℤ, Bool, List, length};
ghost use Rattle.fz_kernel.specs.of_meaning.Relations.{all_both, all_neighbours};
ghost use Rattle.fz_kernel.specs.Views.{ints, slots_of};
ghost use Rattle.fz_globals.specs.Tests.{IsEach, IsOfIndex, IsOfTwo, IsTestedAt};

use crate::indices::index_at;
use fz_kernel::Elements;
use fz_kernel::indices::all_between;

/// Whether each number passes with its index, which is counted from `first`.
pub(crate) fn numbers_pass<F: Fn(i128, i64) -> bool>(
    first: i64,
    numbers: &Elements,
    passes: F,
) -> bool
    requires { F.IsAlwaysCallable passes }
    ensures { (test : ℤ → ℤ → Bool) (left : ℤ → List ℤ → Bool) → IsOfIndex (F.post passes) test
        → IsEach test left → result ≡ left first (ints numbers.now) }
{
    all_between(
        0,
        numbers.len(),
        |place: usize| -> bool
            requires callable { F.IsAlwaysCallable passes }
            requires in_range { place < length (slots_of numbers.now) }
            ensures { IsTestedAt (F.post passes) first (ints numbers.entry.now) place result }
        { passes(index_at(first, place), numbers.int(place)) },
    )
}

/// Whether each number passes with the next one.
pub(crate) fn neighbours_pass<F: Fn(i64, i64) -> bool>(elements: &Elements, pass: F) -> bool
    requires { F.IsAlwaysCallable pass }
    ensures { (p : ℤ → ℤ → Bool) → IsOfTwo (F.post pass) p
        → result ≡ all_neighbours p (ints elements.now) }
{
    all_between(
        1,
        elements.len(),
        |place: usize| -> bool
            requires callable { F.IsAlwaysCallable pass }
            requires from { 1 ≤ place }
            requires in_range { place < length (slots_of elements.now) }
        { pass(elements.int(place - 1), elements.int(place)) },
    )
}

/// Whether each number of one array passes with that of the other at the same index, as far as both
/// go.
pub(crate) fn both_pass<F: Fn(i64, i64) -> bool>(a: &Elements, b: &Elements, pass: F) -> bool
    requires { F.IsAlwaysCallable pass }
    ensures { (p : ℤ → ℤ → Bool) → IsOfTwo (F.post pass) p
        → result ≡ all_both p (ints a.now) (ints b.now) }
{
    all_between(
        0,
        a.len().min(b.len()),
        |place: usize| -> bool
            requires callable { F.IsAlwaysCallable pass }
            requires in_a { place < length (slots_of a.now) }
            requires in_b { place < length (slots_of b.now) }
        { pass(a.int(place), b.int(place)) },
    )
}
