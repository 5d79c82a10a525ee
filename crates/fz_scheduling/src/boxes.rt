//! Boxes: each has a start and a length along each of two axes.
ghost use Rattle.std.specs.Prelude.{◌≡◌, ◌<◌, ◌+◌, ◌||◌, pos, drop, length};
ghost use Rattle.std.specs.List.{list_all};
ghost use Rattle.fz_kernel.specs.of_meaning.Relations.{◌=ℤ◌, all_pairs, boxes, overlap_in_no_area, overlap_nowhere};
ghost use Rattle.fz_kernel.specs.Views.{ints};
ghost use Rattle.fz_scheduling.specs.Places.{box_at, number_at, stand_apart};

use crate::reading::{common_places, is_zero_at};
use crate::spans::are_apart;
use fz_kernel::Elements;
use fz_kernel::indices::all_pairs;

/// Whether no two boxes overlap; even one with no area must not lie within another.
pub fn overlap_nowhere(x: &Elements, y: &Elements, width: &Elements, height: &Elements) -> bool
    ensures exact { result ≡ overlap_nowhere
        (boxes (ints x.now) (ints y.now) (ints width.now) (ints height.now)) }
{
    all_stand_apart(false, x, y, width, height)
}

/// Whether no two boxes that have an area overlap.
pub fn overlap_in_no_area(x: &Elements, y: &Elements, width: &Elements, height: &Elements) -> bool
    ensures exact { result ≡ overlap_in_no_area
        (boxes (ints x.now) (ints y.now) (ints width.now) (ints height.now)) }
{
    all_stand_apart(true, x, y, width, height)
}

// How many boxes there are.
#[inline(always)]
fn count(x: &Elements, y: &Elements, width: &Elements, height: &Elements) -> usize
    ensures { result ≡ length (boxes (ints x.now) (ints y.now) (ints width.now) (ints height.now)) }
{
    common_places(x, width).min(common_places(y, height))
}

fn all_stand_apart(
    spare: bool,
    x: &Elements,
    y: &Elements,
    width: &Elements,
    height: &Elements,
) -> bool
    ensures { result ≡ all_pairs (stand_apart spare)
        (boxes (ints x.now) (ints y.now) (ints width.now) (ints height.now)) }
{
    let count = count(x, y, width, height);
    all_pairs(
        count,
        |one, other| stand_apart(spare, x, y, width, height, one, other),
    )
}

// Whether two boxes have nothing in common; where boxes with no area are exempt, it is enough that
// one of them has none.
#[inline(always)]
fn stand_apart(
    spare: bool,
    x: &Elements,
    y: &Elements,
    width: &Elements,
    height: &Elements,
    one: usize,
    other: usize,
) -> bool
    ensures { result ≡ stand_apart spare (box_at (ints x.now) (ints y.now) (ints width.now)
        (ints height.now) one) (box_at (ints x.now) (ints y.now) (ints width.now)
        (ints height.now) other) }
{
    (spare && (has_no_area(width, height, one) || has_no_area(width, height, other)))
        || are_apart(x, width, one, other)
        || are_apart(y, height, one, other)
}

#[inline(always)]
fn has_no_area(width: &Elements, height: &Elements, place: usize) -> bool
    ensures { result ≡ ((number_at (ints width.now) place =ℤ pos 0)
        || (number_at (ints height.now) place =ℤ pos 0)) }
{
    is_zero_at(width, place) || is_zero_at(height, place)
}
