//! Why a row over tours, bins, knapsacks or runs fails, in words. Elements count from 1.

use crate::element_words::{say_lying, say_named};
use crate::reason::{BinLoad, NoIndex, Reason, Ring, Run, Total};
use crate::rings::follow;
use crate::teller::{Teller, from_one, say};
use crate::told::Sayable;
use fz_globals::index_at;
use fz_store::Builtin;

/// The most positions of a ring that are listed.
const MOST_LISTED: usize = 8;

/// The reason in words.
pub(crate) fn say_arrangement(teller: &mut Teller<'_, '_>, reason: &Reason) {
    match *reason {
        Reason::NoIndex(found) => say_no_index(teller, found),
        Reason::Ring(ring) => say_ring(teller, ring),
        Reason::BinLoad(load) => say_bin_load(teller, load),
        Reason::Weight(Total { total, wanted }) => {
            meet_taken(teller);
            say!(teller; "the weight is ", total, ", not ", teller.value(3, 0, wanted));
            teller.bracket(3, 0);
        }
        Reason::Profit(Total { total, wanted }) => {
            meet_taken(teller);
            say!(teller; "the profit is ", total, ", not ", teller.value(4, 0, wanted));
            teller.bracket(4, 0);
        }
        Reason::Run(run) => say_run(teller, run),
        _ => teller.say("it fails"),
    }
}

fn say_no_index(teller: &mut Teller<'_, '_>, found: NoIndex) {
    let NoIndex { place, value, .. } = found;
    let variable = match teller.builtin {
        Builtin::ArraySetElement => {
            say!(teller; "the index is ", teller.value(0, 0, value));
            teller.bracket(0, 0);
            teller.variable(0, 0)
        }
        Builtin::GecodeCircuit => {
            say_position(teller, place);
            say!(teller; " is ", teller.value(1, place, value));
            teller.variable(1, place)
        }
        _ => {
            say_named(teller, "element ", 1, place);
            say!(teller; " is ", teller.value(1, place, value));
            teller.variable(1, place)
        }
    };
    say!(teller; ", not from ", found.low.piece().of(variable));
    say!(teller; " to ", found.high.piece().of(variable));
}

fn say_bin_load(teller: &mut Teller<'_, '_>, found: BinLoad) {
    say_lying(teller, found.bin, found.load, "");
    say!(teller; teller.value(0, found.place, found.wanted));
    teller.bracket(0, found.place);
}

/// The things of a knapsack of which there are any are in the reason.
fn meet_taken(teller: &mut Teller<'_, '_>) {
    let numbers = teller.view.elements(2);
    for place in 0..numbers.len() {
        if numbers.int(place) != 0 {
            teller.meet_as(2, place, "thing");
        }
    }
}

/// What a run of elements adds up to, or how many of them are in the set.
fn say_run(teller: &mut Teller<'_, '_>, run: Run) {
    let Run { place, count, sum } = run;
    let (one, last) = (from_one(place), place.saturating_add(count));
    let is_among = teller.builtin == Builtin::GecodeAmongSeqInt;
    let (list, low) = if is_among { (0, 3) } else { (3, 0) };
    for element in place..last {
        teller.meet_as(list, element, "element");
    }
    if is_among {
        say!(teller; sum, " of elements ", one, " to ", last, " are in the set");
    } else {
        say!(teller; "elements ", one, " to ", last, " add up to ", sum);
    }
    let (low, high) = (teller.view.int(low), teller.view.int(low + 1));
    say!(teller; ", not from ", low, " to ", high);
}

/// The positions of a ring in their order, by their indices in the list.
fn say_ring(teller: &mut Teller<'_, '_>, ring: Ring) {
    let (first, next) = (teller.view.int(0), teller.view.elements(1));
    teller.say("the circle ");
    let mut position = ring.start;
    for _step in 0..ring.steps.min(MOST_LISTED) {
        let place = place_of(position);
        say!(teller; teller.value(1, place, index_of(first, position)), " → ");
        teller.meet_at(1, place);
        match follow(first, &next, position) {
            Some(following) => position = following,
            None => break,
        }
    }
    if ring.steps > MOST_LISTED {
        teller.say("... → ");
    }
    say!(teller; teller.value(1, place_of(ring.start), index_of(first, ring.start)));
    match teller.builtin {
        Builtin::FzcheckSubcircuit => teller.say(" leaves out others that are moved"),
        _ => say!(teller; " has ", ring.steps, " of ", next.len()),
    }
}

/// An element of a circuit by its number, or by its index where that is another.
pub(crate) fn say_position(teller: &mut Teller<'_, '_>, place: usize) {
    let index = index_at(teller.view.int(0), place);
    if index == from_one(place) as i128 {
        return say_named(teller, "element ", 1, place);
    }
    say!(teller; "the element with index ", teller.value(1, place, index));
    teller.bracket(1, place);
}

/// The place in the list of a position, which counts from 1; that of no element where it is none.
fn place_of(position: i128) -> usize {
    usize::try_from(position.saturating_sub(1)).unwrap_or(usize::MAX)
}

/// The index of a position, which counts from 1.
fn index_of(first: i64, position: i128) -> i128 {
    position.saturating_add(i128::from(first)).saturating_sub(1)
}
