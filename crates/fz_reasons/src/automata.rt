//! Words that an automaton doesn't accept, and lists that are no row of a table.

ghost use Rattle.std.specs.Prelude.{◌≡◌, ◌⊎◌, pos, IfOk, IfSome};
ghost use Rattle.fz_builtins.specs.of_meaning.declared.builtin.Builtin.TheVariants.{FznRegular};
ghost use Rattle.fz_builtins.specs.of_meaning.Relations.{lies_between};
ghost use Rattle.fz_builtins.specs.of_kernel.Views.{arguments_of, assigned};
ghost use Rattle.fz_builtins.specs.Readings.{int, ints as ints_in};
ghost use Rattle.fz_reasons.specs.Elements.{HasNoStep, IsDifferentRow, has_step};
ghost use Rattle.fz_reasons.specs.Reasons.{Says, numbers_at};

use crate::places::lies_between;
use crate::readings::numbers_in;
use crate::reason::{ElementKind, NearRow, NoStep, Reason};
use fz_kernel::ArgumentView;
use fz_scheduling::words::{end_of_run, next_state, state_after};
use std::alloc::{AllocError, Global};

/// The row of the table that agrees longest with the list.
pub(crate) fn near_row(
    alloc: Global,
    kind: ElementKind,
    view: &ArgumentView<'_, '_>,
) -> Result<Option<NearRow>, AllocError>
    ensures { IfOk result (λ o. IfSome o (IsDifferentRow
        (numbers_at kind (assigned view.now) (arguments_of view.now) 0)
        (numbers_at kind (assigned view.now) (arguments_of view.now) 1))) }
{
    let list = numbers_in(alloc, kind, &view.elements(0))?;
    let table = numbers_in(alloc, kind, &view.elements(1))?;
    Ok(nearest(&list, &table))
}

/// The beginning where that is no state, the first symbol that leads to no state, or the state at
/// the end where that isn't one of the last.
#[tactic(auto, unfolding(crate::specs::Reasons::Says))]
pub(crate) fn by_automaton(view: &ArgumentView<'_, '_>) -> Option<Reason>
    ensures { IfSome result (Says FznRegular (assigned view.now) (arguments_of view.now)) }
{
    let (states, first) = (view.int(1), view.int(4));
    if !is_state(states, first) {
        return Some(Reason::BeginsIn(first));
    }
    if let Some(found) = no_step(view, first_stop(view)) {
        return Some(Reason::NoStep(found));
    }
    let state = end_of_run(
        states,
        view.int(2),
        &view.elements(3),
        first,
        &view.elements(0),
    )?;
    if !is_state(states, state) || view.set(5).contains(state) {
        return None;
    }
    Some(Reason::EndsIn(state))
}

fn is_state(states: i64, number: i64) -> bool
    ensures { result ≡ lies_between (pos 1) states number }
{
    lies_between(1, i128::from(states), i128::from(number))
}

// How many symbols lead to a state. What is found is confirmed.
fn first_stop(view: &ArgumentView<'_, '_>) -> usize {
    let list = view.elements(0);
    let mut state = view.int(4);
    for place in 0..list.len() {
        match next_state(
            view.int(1),
            view.int(2),
            &view.elements(3),
            state,
            list.int(place),
        ) {
            Some(next) if is_state(view.int(1), next) => state = next,
            _ => return place,
        }
    }
    list.len()
}

/// The symbol at an index, where those before it lead to a state, and it leads to none.
fn no_step(view: &ArgumentView<'_, '_>, place: usize) -> Option<NoStep>
    ensures { IfSome result (HasNoStep (ints_in view.now 0) (int view.now 1) (int view.now 2)
        (ints_in view.now 3) (int view.now 4)) }
{
    let (list, transitions) = (view.elements(0), view.elements(3));
    if place >= list.len() {
        return None;
    }
    let (states, symbol) = (view.int(1), list.int(place));
    let state = state_after(states, view.int(2), &transitions, view.int(4), &list, place)?;
    if !is_state(states, state) || has_step(view, state, symbol) {
        return None;
    }
    Some(NoStep {
        place,
        state,
        symbol,
    })
}

// Whether a symbol leads from a state to a state.
fn has_step(view: &ArgumentView<'_, '_>, state: i64, symbol: i64) -> bool
    ensures { result
        ≡ has_step (int view.now 1) (int view.now 2) (ints_in view.now 3) state symbol }
{
    match next_state(view.int(1), view.int(2), &view.elements(3), state, symbol) {
        Some(next) => is_state(view.int(1), next),
        None => false,
    }
}

/// The row of a table that agrees longest with a list, and where it differs.
fn nearest(list: &[i64], table: &[i64]) -> Option<NearRow>
    ensures { IfSome result (IsDifferentRow list.now table.now) }
{
    let mut best = first_difference(list, table, 0)?;
    for row in 1..table.len() {
        match first_difference(list, table, row) {
            Some(found) => best = nearer(best, found),
            None => return Some(best),
        }
    }
    Some(best)
}

/// The one of two rows that agrees longer: the first one, where both agree as long.
fn nearer(best: NearRow, found: NearRow) -> NearRow
    ensures { (result ≡ best) ⊎ (result ≡ found) }
{
    if best.place < found.place {
        found
    } else {
        best
    }
}

/// The first index at which a row of the table differs from a list.
fn first_difference(list: &[i64], table: &[i64], row: usize) -> Option<NearRow>
    ensures { IfSome result (IsDifferentRow list.now table.now) }
{
    let start = row.checked_mul(list.len())?;
    for place in 0..list.len() {
        let at = start.checked_add(place)?;
        if at >= table.len() {
            return None;
        }
        let (value, wanted) = (list[place], table[at]);
        if value != wanted {
            return Some(NearRow {
                row,
                place,
                value,
                wanted,
            });
        }
    }
    None
}
