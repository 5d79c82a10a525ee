//! Lists of successors. Positions count from 1, and the indices in a list from `first`.

ghost use Rattle.std.specs.Prelude.{◌≡◌, ◌+◌, IfSome, Some};
ghost use Rattle.fz_builtins.specs.of_meaning.Relations.{as_places, element_at, end_of_tour};
ghost use Rattle.fz_builtins.specs.of_kernel.Views.{ints};
ghost use Rattle.fz_reasons.specs.Elements.{ComesBack, IsShortRing, LeavesOut};

use crate::readings::number_count;
use crate::reason::Ring;
use crate::tours::as_place;
use fz_globals::tours::{count_moved, first_moved};
use fz_kernel::Elements;
use fz_kernel::arrays::int_element_at;

/// The position that follows a position; none where that is no position.
#[tactic(auto, using(crate::proofs::Arranging::not_followed))]
pub fn follow(first: i64, next: &Elements, position: i128) -> Option<i128>
    ensures exact { result ≡ element_at (as_places first (ints next.now)) position }
{
    match int_element_at(position, next) {
        Some(index) => Some(as_place(first, index)),
        None => None,
    }
}

// The position after so many steps, where there is one.
fn walk(first: i64, next: &Elements, start: i128, steps: usize) -> Option<i128>
    ensures { IfSome result
        (λ p. end_of_tour (as_places first (ints next.now)) steps start ≡ Some p) }
{
    let mut position = start;
    for _step in 0..steps {
        position = follow(first, next, position)?;
    }
    Some(position)
}

// After how many steps, fewer than `most`, the successors come back to a position.
fn steps_back(first: i64, next: &Elements, start: i128, most: usize) -> Option<usize> {
    let mut position = start;
    for steps in 1..most {
        position = follow(first, next, position)?;
        if position == start {
            return Some(steps);
        }
    }
    None
}

// The ring from a position back to it, in fewer than so many steps. What is found is walked again.
fn ring_from(first: i64, next: &Elements, start: i128, most: usize) -> Option<Ring>
    ensures ring { IfSome result (ComesBack (as_places first (ints next.now)) most) }
    ensures start { IfSome result (λ c. c.start ≡ start) }
{
    let steps = steps_back(first, next, start, most)?;
    let end = walk(first, next, start, steps)?;
    if steps < 1 || steps >= most || end != start {
        return None;
    }
    Some(Ring { start, steps })
}

/// The ring into which the successors lead from the first position, where it is too short.
pub(crate) fn short_ring(first: i64, next: &Elements) -> Option<Ring>
    ensures { IfSome result (IsShortRing (as_places first (ints next.now))) }
{
    let count = number_count(next);
    let start = walk(first, next, 1, count)?;
    let ring = ring_from(first, next, start, count)?;
    Some(ring)
}

/// The ring of the first position that is moved, where it leaves out another one that is.
pub(crate) fn ring_of_moved(first: i64, next: &Elements) -> Option<Ring>
    ensures { IfSome result (LeavesOut (as_places first (ints next.now))) }
{
    let start = first_moved(first, next)? as i128 + 1;
    let ring = ring_from(first, next, start, count_moved(first, next))?;
    Some(ring)
}
