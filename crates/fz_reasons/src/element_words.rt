//! Reasons that tell of elements, tasks, positions or sets, in words. Elements count from 1.

use crate::arrangement_words::say_arrangement;
use crate::readings::element_kind;
use crate::reason::{
    Clash, Count, Difference, Early, Element, ElementKind, Load, Member, Negative, Neighbours,
    OneWay, Overlap, Quantity, Reason, Relation, Stretch,
};
use crate::teller::{Teller, from_one, say};
use crate::told::{Piece, Sayable};
use crate::words::{say_count, sign};
use fz_globals::{index_at, place_from};
use fz_kernel::numbers::sum;
use fz_scheduling::runs_at;
use fz_store::Builtin;

/// The most tasks that are listed.
const MOST_LISTED: usize = 8;

/// A reason that tells of elements.
pub(crate) fn say_of_elements(teller: &mut Teller<'_, '_>, reason: &Reason) {
    match *reason {
        Reason::Clash(Clash { one, other, value }) => {
            let (list, things, verb) = match teller.builtin {
                Builtin::FznPartitionSet => (0, "sets ", " both have "),
                Builtin::FzcheckSubcircuit => (1, "elements ", " are both "),
                _ => (0, "elements ", " are both "),
            };
            say_named(teller, things, list, one);
            say_named(teller, " and ", list, other);
            say!(teller; verb, teller.value(list, one, value));
        }
        Reason::Neighbours(found) => say_neighbours(teller, found),
        Reason::Count(count) => say_miscounted(teller, count),
        Reason::Outside(Element { place, value }) => {
            say_named(teller, "element ", 0, place);
            say!(teller; " is ", teller.value(0, place, value), ", which isn't in the cover");
        }
        Reason::NotListed(value) => say_not_listed(teller, value),
        Reason::Difference(found) => say_difference(teller, found),
        Reason::Early(found) => say_early(teller, found),
        _ => say_of_tasks(teller, reason),
    }
}

/// What is at a place of a list by its number, behind words, and by its name.
pub(crate) fn say_named(
    teller: &mut Teller<'_, '_>,
    words: &'static str,
    list: usize,
    place: usize,
) {
    say!(teller; words, from_one(place));
    teller.bracket(list, place);
}

/// Whether the elements of a row's list stand for Booleans.
fn are_truths(teller: &Teller<'_, '_>) -> bool {
    matches!(element_kind(teller.builtin), ElementKind::Bool)
}

/// An element of a row's list, or the Boolean that it stands for, which is at this place of this
/// argument, or is compared with what is there.
fn say_element(teller: &mut Teller<'_, '_>, list: usize, place: usize, value: i128) {
    let amount = Piece::amount(are_truths(teller), value);
    say!(teller; teller.value(list, place, amount));
}

fn say_neighbours(teller: &mut Teller<'_, '_>, found: Neighbours) {
    let Neighbours { place, sides } = found;
    say_named(teller, "element ", 0, place);
    teller.say(" is ");
    say_element(teller, 0, place, sides.left);
    say!(teller; ", not ", sign(sides.relation));
    say_element(teller, 0, from_one(place), sides.right);
    teller.bracket(0, from_one(place));
    teller.say(", the next one");
}

/// How often a value of a cover comes, and how often it has to.
fn say_miscounted(teller: &mut Teller<'_, '_>, found: Count) {
    let sides = found.sides;
    let is_most = matches!(sides.relation, Relation::AtMost);
    let (list, wanted) = match teller.builtin {
        Builtin::FznDistribute => (2, 0),
        Builtin::FznGlobalCardinalityLowUp | Builtin::FznGlobalCardinalityLowUpClosed if is_most =>
            (0, 3),
        _ => (0, 2),
    };
    say_count(teller, list, found.value, sides.left);
    let right = teller.value(wanted, found.place, sides.right);
    say!(teller; ", not ", sign(sides.relation), right);
    teller.bracket(wanted, found.place);
}

fn say_not_listed(teller: &mut Teller<'_, '_>, value: i64) {
    if teller.builtin == Builtin::SetIn {
        say!(teller; teller.value(0, 0, value));
        teller.bracket(0, 0);
        teller.say(" isn't in the set");
    } else {
        teller.say("no element is ");
        let amount = Piece::amount(are_truths(teller), i128::from(value));
        let variable = teller.variable(1, 0).or(teller.one_of(0, value));
        say!(teller; amount.of(variable));
        teller.bracket(1, 0);
    }
}

fn say_difference(teller: &mut Teller<'_, '_>, found: Difference) {
    let number = from_one(found.place);
    let is_sorted = teller.builtin == Builtin::FznSort;
    match (found.left, found.right) {
        (Some(left), Some(right)) if is_sorted => {
            say!(teller; "in ascending order element ", number, " is ");
            say!(teller; teller.value(1, found.place, left), ", not ");
            say!(teller; teller.value(1, found.place, right));
            teller.bracket(1, found.place);
        }
        (Some(left), Some(right)) => {
            say!(teller; "the first difference is at element ", number, ": ");
            say_element(teller, 0, found.place, i128::from(left));
            teller.bracket(0, found.place);
            teller.say(" and ");
            say_element(teller, 1, found.place, i128::from(right));
            teller.bracket(1, found.place);
        }
        (None, None) => teller.say("the lists are the same"),
        (left, _) => {
            let (one, other) = match left {
                Some(_) => ("the second", "first"),
                None => ("the first", "second"),
            };
            say!(teller; one, " list ends before element ", number, ", the ", other, " goes on");
        }
    }
}

fn say_early(teller: &mut Teller<'_, '_>, found: Early) {
    let (value, before) = (found.value, found.before);
    let list = match teller.builtin {
        Builtin::GecodePrecedeSet => {
            say_named(teller, "set ", 0, found.place);
            let one = teller.value(0, found.place, value);
            let other = teller.value(0, found.place, before);
            say!(teller; " has ", one, " without ", other);
            return say!(teller; ", none before it ", other, " without ", one);
        }
        Builtin::FznValuePrecedeInt => 2,
        Builtin::FznValuePrecedeChainInt => 1,
        _ => 0,
    };
    say_named(teller, "element ", list, found.place);
    say!(teller; " is ", teller.value(list, found.place, value));
    say!(teller; ", and none before it is ", teller.value(list, found.place, before));
}

/// A reason that tells of tasks, boxes or bins.
fn say_of_tasks(teller: &mut Teller<'_, '_>, reason: &Reason) {
    match *reason {
        Reason::Negative(found) => say_negative(teller, found),
        Reason::Overlap(overlap) => {
            say_pair(teller, "task", "tasks ", &overlap, 2);
            say_stretches(teller, 0, &overlap);
        }
        Reason::Boxes(boxes) => {
            say_pair(teller, "box", "boxes ", &boxes.across, 4);
            say_stretches(teller, 0, &boxes.across);
            teller.say(", and ");
            say_stretches(teller, 1, &boxes.along);
        }
        Reason::Load(load) => say_load(teller, load),
        Reason::Bin(Load { time, sides, .. }) => {
            say_lying(teller, i128::from(time), sides.left, "≤ ");
            say!(teller; teller.value(0, 0, sides.right));
            teller.bracket(0, 0);
        }
        _ => say_of_places(teller, reason),
    }
}

fn say_negative(teller: &mut Teller<'_, '_>, found: Negative) {
    let Negative { place, value, .. } = found;
    match found.quantity {
        Quantity::Duration => say_task(teller, 1, place, " lasts ", value),
        Quantity::Use => say_task(teller, 2, place, " uses ", value),
        Quantity::Number => {
            teller.meet_as(2, place, "thing");
            say!(teller; "the number of thing ", from_one(place), " is ");
            say!(teller; teller.value(2, place, value), ", not ≥ ", 0i64);
        }
        Quantity::Limit => say_scalar(teller, "the limit is ", 3, value),
        Quantity::Weight => say_scalar(teller, "the weight is ", 3, value),
        Quantity::Profit => say_scalar(teller, "the profit is ", 4, value),
        Quantity::Width => say_scalar(teller, "the number of neighbours is ", 2, value),
    }
}

/// How long a task lasts, or how much it uses.
fn say_task(
    teller: &mut Teller<'_, '_>,
    argument: usize,
    place: usize,
    verb: &'static str,
    value: i64,
) {
    teller.meet_as(argument, place, "task");
    say!(teller; "task ", from_one(place), verb, teller.value(argument, place, value));
}

/// An argument that is below 0.
fn say_scalar(teller: &mut Teller<'_, '_>, words: &'static str, argument: usize, value: i64) {
    say!(teller; words, teller.value(argument, 0, value));
    teller.bracket(argument, 0);
    say!(teller; ", not ≥ ", 0i64);
}

/// That two of the things of which the first arguments have an element each overlap.
fn say_pair(
    teller: &mut Teller<'_, '_>,
    thing: &str,
    things: &'static str,
    overlap: &Overlap,
    arguments: usize,
) {
    let (one, other) = (overlap.one, overlap.other);
    teller.meet_each(0..arguments, one, thing);
    teller.meet_each(0..arguments, other, thing);
    say!(teller; things, from_one(one), " and ", from_one(other), " overlap: ");
}

/// From where to where two things last, which begin at what this argument has of them.
fn say_stretches(teller: &mut Teller<'_, '_>, argument: usize, overlap: &Overlap) {
    let begins = teller.value(argument, overlap.one, overlap.first.start);
    say!(teller; "from ", begins, " to ", end_of(overlap.first));
    let begins = teller.value(argument, overlap.other, overlap.second.start);
    say!(teller; " and from ", begins, " to ", end_of(overlap.second));
}

fn end_of(stretch: Stretch) -> i128 {
    sum(stretch.start, stretch.length)
}

/// The tasks that run at a time, what they use together, and what there is.
fn say_load(teller: &mut Teller<'_, '_>, load: Load) {
    let (time, left, right) = (load.time, load.sides.left, load.sides.right);
    let (starts, lengths) = (teller.view.elements(0), teller.view.elements(1));
    say!(teller; "at ", time, " the tasks ");
    let mut count: usize = 0;
    for task in 0..starts.len().min(lengths.len()) {
        if runs_at(time, &starts, &lengths, task) {
            teller.meet_each(0..3, task, "task");
            if count < MOST_LISTED {
                let comma = if count > 0 { ", " } else { "" };
                say!(teller; comma, from_one(task));
            }
            count = count.saturating_add(1);
        }
    }
    if count > MOST_LISTED {
        say!(teller; ", ... and ", count - MOST_LISTED, " more");
    }
    say!(teller; " run and use ", left, ", not ≤ ", teller.value(3, 0, right));
    teller.bracket(3, 0);
}

/// What lies in a bin, before what it is compared with by this sign.
pub(crate) fn say_lying(teller: &mut Teller<'_, '_>, bin: i128, load: i128, sign: &'static str) {
    let thing = meet_in_bin(teller, bin);
    say!(teller; "in bin ", bin.piece().of(thing), " lies ", load, ", not ", sign);
}

/// The things that lie in a bin are in the reason, with their weights. One variable that tells so
/// is given.
fn meet_in_bin(teller: &mut Teller<'_, '_>, bin: i128) -> Option<usize> {
    let bins = teller.view.elements(1);
    let mut thing = None;
    for place in 0..bins.len() {
        if i128::from(bins.int(place)) == bin {
            teller.meet_each(1..3, place, "thing");
            thing = thing.or(teller.variable(1, place));
        }
    }
    thing
}

/// A reason that tells of positions, states, rows or sets.
fn say_of_places(teller: &mut Teller<'_, '_>, reason: &Reason) {
    match *reason {
        Reason::OneWay(found) => say_one_way(teller, found, true),
        Reason::OtherWay(found) => say_one_way(teller, found, false),
        Reason::BeginsIn(state) => {
            say!(teller; "it begins in ", teller.value(4, 0, state));
            teller.bracket(4, 0);
            teller.say(", which is no state");
        }
        Reason::NoStep(found) => {
            say_named(teller, "element ", 0, found.place);
            say!(teller; ": no step from state ", found.state, " by ");
            say!(teller; teller.value(0, found.place, found.symbol));
        }
        Reason::EndsIn(state) => {
            say!(teller; "it ends in state ", state, ", which isn't one of the last");
        }
        Reason::NearRow(found) => {
            say!(teller; "no row fits; row ", from_one(found.row), " differs at ");
            say_named(teller, "element ", 0, found.place);
            teller.say(": ");
            say_element(teller, 0, found.place, i128::from(found.wanted));
            teller.say(", not ");
            say_element(teller, 0, found.place, i128::from(found.value));
        }
        Reason::Member(member) => say_member(teller, member),
        _ => say_arrangement(teller, reason),
    }
}

/// That an index isn't led back to, or the element with an index and the set with an index that
/// disagree.
fn say_one_way(teller: &mut Teller<'_, '_>, found: OneWay, of_first: bool) {
    let OneWay { place, value, .. } = found;
    let (second, verb) = match teller.builtin {
        Builtin::GecodeIntSetChannel if of_first => return say_no_set(teller, found),
        Builtin::GecodeIntSetChannel => return say_no_element(teller, found),
        Builtin::GecodeInverseSet => (1, " list has "),
        _ => (2, " list is "),
    };
    let (list, ordinal) = if of_first {
        (0, " of the first")
    } else {
        (second, " of the second")
    };
    say_named(teller, "element ", list, place);
    let value = teller.value(list, place, value);
    say!(teller; ordinal, verb, value, ", which doesn't lead back");
}

/// The element with an index, which isn't in the set that it tells.
fn say_no_set(teller: &mut Teller<'_, '_>, found: OneWay) {
    let value = teller.value(0, found.place, found.value);
    let index = say_with_index(teller, "the element with index ", 0, found.place);
    say!(teller; " is ", value);
    let Some(place) = place_of_index(teller, 2, found.value) else {
        return teller.say(", which is no index");
    };
    say!(teller; ", and set ", value);
    teller.bracket(2, place);
    say!(teller; " hasn't ", teller.value(2, place, index));
}

/// The set with an index, and its element that isn't the index of one that tells the set.
fn say_no_element(teller: &mut Teller<'_, '_>, found: OneWay) {
    let value = teller.value(2, found.place, found.value);
    say_with_index(teller, "set ", 2, found.place);
    say!(teller; " has ", value);
    let (Some(back), Some(place)) = (found.back, place_of_index(teller, 0, found.value)) else {
        return teller.say(", which is no index");
    };
    say!(teller; ", and the element with index ", value);
    teller.bracket(0, place);
    say!(teller; " is ", teller.value(0, place, back));
}

/// What is at a place of a list by its index, from the number behind the list on.
fn say_with_index(
    teller: &mut Teller<'_, '_>,
    words: &'static str,
    list: usize,
    place: usize,
) -> i128 {
    let index = index_at(teller.view.int(from_one(list)), place);
    say!(teller; words, index);
    teller.bracket(list, place);
    index
}

/// The place of what has an index in a list, from the number behind the list on.
fn place_of_index(teller: &Teller<'_, '_>, list: usize, index: i64) -> Option<usize> {
    let first = teller.view.int(from_one(list));
    place_from(index, first, teller.view.elements(list).len())
}

/// In which of the sets a number is, and in which it isn't.
fn say_member(teller: &mut Teller<'_, '_>, member: Member) {
    let (first, second) = (is_in(member.first), is_in(member.second));
    say!(teller; member.number, " is");
    match teller.builtin {
        Builtin::SetUnion | Builtin::SetIntersect | Builtin::SetDiff | Builtin::SetSymdiff => {
            say!(teller; first, " the first,", second, " the second and");
            say!(teller; is_in(member.third), " the third");
        }
        Builtin::ArraySetElement => say!(teller; first, " the element and", second, " the set"),
        Builtin::SetConvex => {
            teller.say("n't in the set, which has a lesser number and a greater one");
        }
        Builtin::GecodeArraySetElementUnion | Builtin::GecodeRange => say_chosen(teller, member),
        Builtin::FznPartitionSet => {
            let one = if member.first { " in one" } else { " in none" };
            say!(teller; one, " of the sets and", second, " the whole");
        }
        Builtin::GecodeLinkSetToBooleans => {
            let truth = if member.second { "is" } else { "isn't" };
            say!(teller; first, " the set, and its Boolean ", truth, " true");
        }
        _ => say!(teller; first, " the first and", second, " the second"),
    }
}

/// Whether a number is chosen and whether it is in the set, or that it is an index of nothing.
fn say_chosen(teller: &mut Teller<'_, '_>, member: Member) {
    let is_range = teller.builtin == Builtin::GecodeRange;
    let one = if member.first { "one" } else { "none" };
    let second = is_in(member.second);
    match member.third {
        true if is_range => teller.say(" in the third, and no index"),
        true => teller.say(" in the first, and no index"),
        false if is_range => {
            say!(teller; " ", one, " of the chosen elements and", second, " the fourth");
        }
        false => say!(teller; " in ", one, " of the chosen sets and", second, " the third"),
    }
}

fn is_in(there: bool) -> &'static str {
    if there { " in" } else { " not in" }
}
