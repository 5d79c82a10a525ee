//! Tasks: each has a start, a duration, and a use of the resource that they share.
ghost use Rattle.std.specs.Prelude.{◌≡◌, ◌&&◌, length};
ghost use Rattle.std.specs.List.{list_all, zip};
ghost use Rattle.fz_kernel.specs.of_meaning.Relations.{all_pairs, are_apart, is_cumulative, is_disjunctive, is_natural, is_strictly_disjunctive, used_at};
ghost use Rattle.fz_kernel.specs.Views.{ints};
ghost use Rattle.fz_scheduling.specs.Places.{keeps_within, number_at, span_at};

use crate::reading::{common_places, is_natural_at, is_zero_at, number_at, number_count};
use crate::spans::{all_keep_apart, last_naturally, runs_at};
use fz_kernel::Elements;
use fz_kernel::indices::all_between;

/// Whether no two tasks that last run at one time, and no duration is negative.
pub fn is_disjunctive(starts: &Elements, durations: &Elements) -> bool
    ensures exact { result ≡ is_disjunctive (zip (ints starts.now) (ints durations.now)) }
{
    last_naturally(starts, durations) && all_keep_apart(true, starts, durations)
}

/// The same, but a task that doesn't last must not lie within another either.
pub fn is_strictly_disjunctive(starts: &Elements, durations: &Elements) -> bool
    ensures exact { result ≡ is_strictly_disjunctive (zip (ints starts.now) (ints durations.now)) }
{
    last_naturally(starts, durations) && are_apart(starts, durations)
}

/// The same, where a duration may be negative: a task ends before it starts then.
pub fn are_apart(starts: &Elements, durations: &Elements) -> bool
    ensures exact { result ≡ all_pairs are_apart (zip (ints starts.now) (ints durations.now)) }
{
    all_keep_apart(false, starts, durations)
}

/// Whether at no start of a task that lasts and uses something more than `most` is used. Durations
/// and uses are 0 or more.
pub fn is_cumulative(starts: &Elements, durations: &Elements, uses: &Elements, most: i64) -> bool
    ensures exact { result ≡ is_cumulative
        (zip (zip (ints starts.now) (ints durations.now)) (ints uses.now)) most }
{
    are_natural(starts, durations, uses)
        && (count(starts, durations, uses) == 0 || 0 <= most)
        && none_exceeds(starts, durations, uses, most)
}

// How many tasks there are.
#[inline(always)]
fn count(starts: &Elements, durations: &Elements, uses: &Elements) -> usize
    ensures { result ≡ length (zip (zip (ints starts.now) (ints durations.now)) (ints uses.now)) }
{
    common_places(starts, durations).min(number_count(uses))
}

// Whether no duration and no use is negative.
fn are_natural(starts: &Elements, durations: &Elements, uses: &Elements) -> bool
    ensures { result ≡ list_all (λ k. is_natural k.0.1 && is_natural k.1)
        (zip (zip (ints starts.now) (ints durations.now)) (ints uses.now)) }
{
    let count = count(starts, durations, uses);
    all_between(0, count, |task| is_natural_task(durations, uses, task))
}

#[inline(always)]
fn is_natural_task(durations: &Elements, uses: &Elements, task: usize) -> bool
    ensures { result ≡ (is_natural (number_at (ints durations.now) task)
        && is_natural (number_at (ints uses.now) task)) }
{
    is_natural_at(durations, task) && is_natural_at(uses, task)
}

// Whether the use stays within `most` at each start of a task that counts.
fn none_exceeds(starts: &Elements, durations: &Elements, uses: &Elements, most: i64) -> bool
    ensures { result ≡ list_all (keeps_within most (zip (zip (ints starts.now) (ints durations.now))
        (ints uses.now))) (zip (zip (ints starts.now) (ints durations.now)) (ints uses.now)) }
{
    let count = count(starts, durations, uses);
    all_between(
        0,
        count,
        |task| keeps_within(starts, durations, uses, most, task),
    )
}

// Whether the use stays within `most` at the start of a task, or the task doesn't count.
fn keeps_within(
    starts: &Elements,
    durations: &Elements,
    uses: &Elements,
    most: i64,
    task: usize,
) -> bool
    ensures { result ≡ keeps_within most (zip (zip (ints starts.now) (ints durations.now))
        (ints uses.now)) (
          span_at (ints starts.now) (ints durations.now) task,
          number_at
              (ints uses.now) task,
        ) }
{
    is_zero_at(durations, task)
        || is_zero_at(uses, task)
        || used_at(number_at(starts, task), starts, durations, uses) <= i128::from(most)
}

/// The sum of what is used at a time. No array is long enough for it to leave 128 bits.
pub fn used_at(time: i64, starts: &Elements, durations: &Elements, uses: &Elements) -> i128
    ensures exact { result ≡ used_at time
        (zip (zip (ints starts.now) (ints durations.now)) (ints uses.now)) }
{
    let mut sum: i128 = 0;
    for task in 0..count(starts, durations, uses) {
        if runs_at(time, starts, durations, task) {
            sum += i128::from(number_at(uses, task));
        }
    }
    sum
}
