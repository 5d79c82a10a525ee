//! Reading the numbers of arrays.

ghost use Rattle.std.specs.Prelude.{◌≡◌, false, pos, length, slice_index_or};
ghost use Rattle.std.specs.List.{zip};
ghost use Rattle.fz_kernel.specs.of_meaning.Relations.{◌=ℤ◌, is_natural};
ghost use Rattle.fz_kernel.specs.Views.{bools, ints};
ghost use Rattle.fz_scheduling.specs.Places.{number_at};

use fz_kernel::Elements;

/// The number at an index; 0 past the end.
#[inline(always)]
pub fn number_at(elements: &Elements, place: usize) -> i64
    ensures { result ≡ number_at (ints elements.now) place }
{
    if place < elements.len() {
        elements.int(place)
    } else {
        0
    }
}

/// Whether the number at an index is 0 or more.
#[inline(always)]
pub fn is_natural_at(elements: &Elements, place: usize) -> bool
    ensures { result ≡ is_natural (number_at (ints elements.now) place) }
{
    0 <= number_at(elements, place)
}

/// Whether the number at an index is 0.
#[inline(always)]
pub fn is_zero_at(elements: &Elements, place: usize) -> bool
    ensures { result ≡ (number_at (ints elements.now) place =ℤ pos 0) }
{
    number_at(elements, place) == 0
}

/// The Boolean at an index; false past the end.
#[inline(always)]
pub fn truth_at(elements: &Elements, place: usize) -> bool
    ensures { result ≡ slice_index_or (bools elements.now) place false }
{
    if place < elements.len() {
        elements.truth(place)
    } else {
        false
    }
}

/// How many Booleans there are.
#[inline(always)]
pub fn truth_count(elements: &Elements) -> usize
    ensures { result ≡ length (bools elements.now) }
{
    elements.len()
}

/// How many numbers there are.
#[inline(always)]
pub fn number_count(elements: &Elements) -> usize
    ensures { result ≡ length (ints elements.now) }
{
    elements.len()
}

/// The length of the shorter of two arrays.
#[inline(always)]
pub fn common_places(a: &Elements, b: &Elements) -> usize
    ensures { result ≡ length (zip (ints a.now) (ints b.now)) }
{
    number_count(a).min(number_count(b))
}
