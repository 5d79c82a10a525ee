//! The result of a row in words, as it is computed: the term whose value it is, first with the
//! names of variables and then with their values, or which element decides on it.

use crate::element_words::say_named;
use crate::sum_words::say_term;
use crate::teller::{Teller, say};
use crate::told::Sayable;
use fz_builtins::{Said, said_of};
use fz_globals::place_from;
use fz_store::{Builtin, SetError};
use std::alloc::AllocError;

/// The result of a row by its other arguments: the argument that has to be it, and the value, if
/// there is one.
#[derive(Clone, Copy)]
pub(crate) enum RowResult {
    Number(usize, Option<i128>),
    Truth(usize, Option<bool>),
}

/// A row whose result is a term of the first two arguments, or of the first alone, and what is
/// written before them, between them and behind them.
struct Term(Builtin, &'static str, Option<&'static str>, &'static str);

static TERMS: [Term; 17] = [
    Term(Builtin::IntPlus, "", Some(" + "), ""),
    Term(Builtin::IntMinus, "", Some(" - "), ""),
    Term(Builtin::IntTimes, "", Some("·"), ""),
    Term(Builtin::IntMin, "min(", Some(", "), ")"),
    Term(Builtin::IntMax, "max(", Some(", "), ")"),
    Term(Builtin::IntAbs, "|", None, "|"),
    Term(Builtin::IntNegate, "-", None, ""),
    Term(Builtin::IntDiv, "", Some(" div "), ""),
    Term(Builtin::IntMod, "", Some(" mod "), ""),
    Term(Builtin::IntPow, "", Some("^"), ""),
    Term(Builtin::BoolAnd, "", Some(" and "), ""),
    Term(Builtin::BoolAndImp, "", Some(" and "), ""),
    Term(Builtin::BoolOr, "", Some(" or "), ""),
    Term(Builtin::BoolOrImp, "", Some(" or "), ""),
    Term(Builtin::BoolXor, "", Some(" xor "), ""),
    Term(Builtin::BoolXorImp, "", Some(" xor "), ""),
    Term(Builtin::BoolNot, "not ", None, ""),
];

/// The rows whose result is told in words.
static PHRASES: [(Builtin, &str); 10] = [
    (Builtin::ArrayIntMaximum, "the greatest element is "),
    (Builtin::ArrayIntMinimum, "the least element is "),
    (
        Builtin::GecodeMaximumArgIntOffset,
        "the greatest has index ",
    ),
    (Builtin::GecodeMinimumArgIntOffset, "the least has index "),
    (
        Builtin::GecodeMaximumArgBoolOffset,
        "the greatest has index ",
    ),
    (Builtin::GecodeSetWeights, "the sum of the weights is "),
    (Builtin::SetCard, "the number of elements is "),
    (Builtin::FznAmong, "the number of elements in the set is "),
    (Builtin::FznNvalue, "the number of values is "),
    (Builtin::BoolLinEq, "the sum where it is true is "),
];

/// The result of a row; none of a row without one.
pub(crate) fn result_of(teller: &Teller<'_, '_>) -> Result<Option<RowResult>, AllocError> {
    match said_of(teller.alloc, teller.builtin, false, &teller.view) {
        Ok(Said::Number(argument, number)) => Ok(Some(RowResult::Number(argument, number))),
        Ok(Said::Boolean(argument, truth)) => Ok(Some(RowResult::Truth(argument, truth))),
        Ok(Said::Whether(_) | Said::Set(_, _) | Said::Given(_, _)) => Ok(None),
        Err(SetError::Memory) => Err(AllocError),
    }
}

/// A result as it is computed, and its value.
pub(crate) fn say_result(teller: &mut Teller<'_, '_>, found: RowResult) {
    let (RowResult::Number(argument, _) | RowResult::Truth(argument, _)) = found;
    match teller.builtin {
        // Which of two arguments that are to be the same has the value that comes.
        Builtin::IntEq | Builtin::BoolEq | Builtin::Bool2Int if argument == 0 => {
            teller.name_equal(1)
        }
        Builtin::IntEq | Builtin::BoolEq | Builtin::Bool2Int => teller.name_equal(0),
        _ => say_front(teller),
    }
    match found {
        RowResult::Number(argument, Some(number)) => {
            say!(teller; teller.value(argument, 0, number));
            name_extreme(teller, number);
        }
        RowResult::Truth(argument, Some(truth)) => {
            say!(teller; teller.value(argument, 0, truth));
        }
        RowResult::Number(_, None) | RowResult::Truth(_, None) => teller.say("no value"),
    }
}

/// The first element that is the greatest or the least one, by its name.
fn name_extreme(teller: &mut Teller<'_, '_>, number: i128) {
    match teller.builtin {
        Builtin::ArrayIntMaximum | Builtin::ArrayIntMinimum => {}
        _ => return,
    }
    let elements = teller.view.elements(1);
    for place in 0..elements.len() {
        if i128::from(elements.int(place)) == number {
            return teller.bracket(1, place);
        }
    }
}

/// How a result is told: which element decides on it, or the term whose value it is.
pub(crate) fn say_front(teller: &mut Teller<'_, '_>) {
    for term in &TERMS {
        if term.0 == teller.builtin {
            return say_by_names_and_values(teller, term);
        }
    }
    for (builtin, phrase) in &PHRASES {
        if *builtin == teller.builtin {
            return teller.say(phrase);
        }
    }
    match teller.builtin {
        Builtin::ArrayBoolAnd | Builtin::ArrayBoolAndImp => {
            say_decisive(teller, false, "each element is true: ")
        }
        Builtin::ArrayBoolOr | Builtin::ArrayBoolOrImp => {
            say_decisive(teller, true, "no element is true: ")
        }
        Builtin::ArrayIntElement | Builtin::ArrayBoolElement => say_indexed(teller),
        Builtin::FznCountEq => {
            let value = teller.view.int(1);
            teller.meet_equal(0, value);
            let found = teller.one_of(0, value);
            say!(teller; "the number of times ", value.piece().of(found), " comes is ");
        }
        _ => {}
    }
}

/// The term by names, where it has any, and by values, each with a sign of equality behind it.
fn say_by_names_and_values(teller: &mut Teller<'_, '_>, term: &Term) {
    let is_named = teller.variable(0, 0).is_some()
        || term.2.is_some() && teller.variable(1, 0).is_some();
    if is_named {
        say_by(teller, term, true);
    }
    say_by(teller, term, false);
}

fn say_by(teller: &mut Teller<'_, '_>, term: &Term, by_name: bool) {
    let Term(_, front, between, behind) = term;
    teller.say(front);
    say_operand(teller, 0, by_name);
    if let Some(between) = between {
        teller.say(between);
        say_operand(teller, 1, by_name);
    }
    say!(teller; *behind, " = ");
}

/// One of the first two arguments, by its name or its value.
fn say_operand(teller: &mut Teller<'_, '_>, argument: usize, by_name: bool) {
    match teller.variable(argument, 0) {
        Some(variable) if by_name => return teller.name(variable),
        _ => {}
    }
    let stands_alone = match teller.builtin {
        Builtin::IntMin | Builtin::IntMax | Builtin::IntAbs => true,
        Builtin::IntPow | Builtin::IntNegate => false,
        Builtin::IntPlus
        | Builtin::IntMinus
        | Builtin::IntTimes
        | Builtin::IntDiv
        | Builtin::IntMod => argument == 0,
        _ => {
            let truth = teller.view.truth(argument);
            return say!(teller; teller.value(argument, 0, truth));
        }
    };
    let number = teller.view.int(argument);
    say_term(teller, stands_alone, number, teller.variable(argument, 0));
}

/// The element at an index, with the name of what has the index.
fn say_indexed(teller: &mut Teller<'_, '_>) {
    let index = teller.view.int(0);
    if let Some(variable) = teller.variable(0, 0) {
        teller.name(variable);
        say!(teller; " = ", teller.value(0, 0, index), ", and ");
    }
    say!(teller; "element ", teller.value(0, 0, index));
    let count = teller.view.elements(1).len();
    if let Some(place) = place_from(index, 1, count) {
        teller.bracket(1, place);
    }
    teller.say(" = ");
}

/// The first element that decides on whether all are true, or whether one is, or else that none
/// does.
fn say_decisive(teller: &mut Teller<'_, '_>, decides: bool, none: &'static str) {
    let elements = teller.view.elements(0);
    for place in 0..elements.len() {
        if elements.truth(place) == decides {
            say_named(teller, "element ", 0, place);
            return say!(teller; " is ", teller.value(0, place, decides), ": ");
        }
    }
    teller.say(none);
}
