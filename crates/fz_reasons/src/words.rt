//! The reason why a constraint fails, or why it gave a value, in words. Indices count from 1.

ghost use Rattle.std.specs.Prelude.{◌<◌, length};
ghost use Rattle.fz_builtins.specs.of_meaning.Meaning.{points};

use crate::element_words::say_of_elements;
use crate::reason::{Operands, Reason, Relation, Sides, Why};
use crate::rows::{holds, reason_of, why};
use crate::sides::{comparison, sides_of};
use crate::sum_words::{say_ones, say_sum};
use crate::teller::{Teller, say};
use crate::term_words::{RowResult, result_of, say_front, say_result};
use crate::told::{Piece, Sayable, Told};
use fz_kernel::Readiness;
use fz_store::{Builtin, Form, Known, Model, Partial, PointParts};
use std::alloc::{AllocError, Global};

/// Why the constraint at a point fails, in words; none of another point, and none where there is no
/// reason to tell.
///
/// # Errors
///
/// Out of memory.
pub fn reason_at(
    alloc: Global,
    model: &Model<'_>,
    filling: &Partial,
    point: usize,
) -> Result<Option<Told>, AllocError>
    requires in_range { point < length (points model.now) }
{
    let Some((known, mut teller)) = teller_at(alloc, model, filling, point) else {
        return Ok(None);
    };
    say_why(&mut teller, known)?;
    teller.told()
}

/// Why the constraint at a point gave its value, in words; none where there is nothing to tell.
///
/// # Errors
///
/// Out of memory.
pub fn giving_at(
    alloc: Global,
    model: &Model<'_>,
    filling: &Partial,
    point: usize,
) -> Result<Option<Told>, AllocError>
    requires in_range { point < length (points model.now) }
{
    let Some((known, mut teller)) = teller_at(alloc, model, filling, point) else {
        return Ok(None);
    };
    say_how(&mut teller, known)?;
    teller.told()
}

/// The constraint at a point, with its row; none where some value is missing.
fn teller_at<'s, 'a>(
    alloc: Global,
    model: &'s Model<'a>,
    filling: &'s Partial,
    point: usize,
) -> Option<(Known, Teller<'s, 'a>)>
    requires in_range { point < length (points model.now) }
{
    let PointParts::Constraint(parts) = model.point_parts(point) else {
        return None;
    };
    let known = parts.posted.known?;
    let teller = Teller::new(alloc, known.builtin, parts, filling);
    match teller.view.readiness(known.shapes()) {
        Readiness::Ready => Some((known, teller)),
        Readiness::WrongKind | Readiness::Missing => None,
    }
}

/// Why a row or one of its reified forms fails.
fn say_why(teller: &mut Teller<'_, '_>, known: Known) -> Result<(), AllocError> {
    match why(teller.alloc, known, &teller.view)? {
        Some(Why::Fails(reason)) => say_reason(teller, &reason),
        Some(Why::Holds) => {
            say_held(teller);
            teller.say(", but the Boolean is false");
        }
        None => {}
    }
    Ok(())
}

/// How a base row gave a value: its result, or what it compares. That two values are the same, the
/// values say. Of a reified form, why the row fails, or that it holds.
fn say_how(teller: &mut Teller<'_, '_>, known: Known) -> Result<(), AllocError> {
    match (known.form, teller.builtin) {
        (Form::Base, Builtin::IntEq | Builtin::BoolEq | Builtin::Bool2Int) => {}
        (Form::Base, _) => match result_of(teller)? {
            Some(result) => say_result(teller, result),
            None if sides_of(teller.builtin, &teller.view).is_some() => say_held(teller),
            None => {}
        },
        (Form::Reified | Form::Implied, _) => {
            match reason_of(teller.alloc, teller.builtin, &teller.view)? {
                Some(reason) => say_reason(teller, &reason),
                None if holds(teller.alloc, teller.builtin, &teller.view)? => say_held(teller),
                None => {}
            }
        }
    }
    Ok(())
}

/// That a row holds, with both sides where it compares two.
fn say_held(teller: &mut Teller<'_, '_>) {
    match sides_of(teller.builtin, &teller.view) {
        None => teller.say("what it reifies holds"),
        Some(sides) if matches!(sides.relation, Relation::Equal) => say_left(teller, sides),
        Some(sides) => {
            say_left(teller, sides);
            teller.say(" ");
            say_right(teller, sides);
        }
    }
}

/// The sign of a relation, with a blank; that two are equal is told without a sign.
pub(crate) fn sign(relation: Relation) -> &'static str {
    match relation {
        Relation::Equal => "",
        Relation::NotEqual => "≠ ",
        Relation::AtMost => "≤ ",
        Relation::Below => "< ",
        Relation::AtLeast => "≥ ",
        Relation::Above => "> ",
    }
}

/// Whether Booleans are compared.
fn are_truths(operands: Operands) -> bool {
    match operands {
        Operands::Truths
        | Operands::And
        | Operands::Or
        | Operands::Xor
        | Operands::All
        | Operands::Any => true,
        Operands::Scalars
        | Operands::Products
        | Operands::Weights
        | Operands::Count
        | Operands::CountLast => false,
    }
}

/// The left one of two sides as it is computed, and its value.
fn say_left(teller: &mut Teller<'_, '_>, sides: Sides) {
    let Some((operands, _)) = comparison(teller.builtin) else {
        return;
    };
    match operands {
        Operands::Products => say_sum(teller),
        Operands::Weights => {
            meet_true(teller);
            teller.say("the sum where it is true is ");
        }
        Operands::Count => {
            let counted = teller.view.int(1);
            return say_count(teller, 0, counted, sides.left);
        }
        Operands::CountLast => {
            let counted = teller.view.int(2);
            return say_count(teller, 1, counted, sides.left);
        }
        Operands::Scalars | Operands::Truths => teller.name_equal(0),
        Operands::And | Operands::Or | Operands::Xor | Operands::All | Operands::Any => {
            say_front(teller);
        }
    }
    let left = Piece::amount(are_truths(operands), sides.left);
    say!(teller; left.of(owner_of(teller, operands)));
}

/// The variable whose value a computed side is, or with whose value it is compared.
fn owner_of(teller: &Teller<'_, '_>, operands: Operands) -> Option<usize> {
    match operands {
        Operands::Scalars | Operands::Truths => teller.variable(0, 0).or(teller.variable(1, 0)),
        Operands::Products if is_one_term(teller) => teller.variable(1, 0),
        _ => teller.variable(right_argument(operands), 0),
    }
}

/// Whether a sum of products is a term alone.
fn is_one_term(teller: &Teller<'_, '_>) -> bool {
    let factors = teller.view.elements(0);
    factors.len() == 1 && factors.int(0) == 1
}

/// The argument with which a row compares what it reads or computes.
fn right_argument(operands: Operands) -> usize {
    match operands {
        Operands::CountLast => 0,
        Operands::Scalars | Operands::Truths | Operands::All | Operands::Any => 1,
        Operands::Products
        | Operands::Weights
        | Operands::Count
        | Operands::And
        | Operands::Or
        | Operands::Xor => 2,
    }
}

/// The Booleans that are true are in the reason.
fn meet_true(teller: &mut Teller<'_, '_>) {
    let truths = teller.view.elements(1);
    for place in 0..truths.len() {
        if truths.truth(place) {
            teller.meet_at(1, place);
        }
    }
}

/// How often a number is an element of a list.
pub(crate) fn say_count(teller: &mut Teller<'_, '_>, list: usize, value: i64, count: i128) {
    teller.meet_equal(list, value);
    let found = teller.one_of(list, value);
    say!(teller; value.piece().of(found), " comes ", count, " times");
}

/// The right one of two sides, behind the sign.
fn say_right(teller: &mut Teller<'_, '_>, sides: Sides) {
    let Some((operands, _)) = comparison(teller.builtin) else {
        return;
    };
    let argument = right_argument(operands);
    let owner = teller.variable(argument, 0).or(owner_of(teller, operands));
    let right = Piece::amount(are_truths(operands), sides.right);
    say!(teller; sign(sides.relation), right.of(owner));
    teller.bracket(argument, 0);
}

/// A reason of a row.
fn say_reason(teller: &mut Teller<'_, '_>, reason: &Reason) {
    match *reason {
        Reason::Sides(sides) if say_ones(teller, sides) => {}
        Reason::Sides(sides) => {
            say_left(teller, sides);
            teller.say(", not ");
            say_right(teller, sides);
        }
        Reason::Number(other) => {
            say_result(teller, RowResult::Number(other.argument, other.wanted));
            say!(teller; ", not ", teller.value(other.argument, 0, other.value));
            teller.bracket(other.argument, 0);
        }
        Reason::Truth(other) => {
            say_result(teller, RowResult::Truth(other.argument, other.wanted));
            say!(teller; ", not ", teller.value(other.argument, 0, other.value));
            teller.bracket(other.argument, 0);
        }
        Reason::NoLiteral => teller.say("no literal is true"),
        Reason::Even => teller.say("an even number of elements are true"),
        Reason::Same => teller.say("the sets are the same"),
        _ => say_of_elements(teller, reason),
    }
}
