//! The message on a verdict: the point that it is about, the variables in that, their values and
//! where these come from.

ghost use Rattle.std.specs.Prelude.{◌<◌, length};
ghost use Rattle.fz_filling.specs.of_model.Meaning.{points};

use crate::case::Case;
use crate::chain::note_chain;
use crate::domain::declared_domain;
use crate::failing::{Sought, failing_points, first_point};
use crate::help::note_help;
use crate::message::{Message, Text, message_at};
use crate::notes::{note_domain, note_fixed, note_variables, owner_of, push_told};
use crate::parts::{Owner, Phrase};
use crate::past::Past;
use crate::place::{constraint_of, point_place};
use crate::printed::{note_printed, printed_place};
use crate::refutation::note_refutation;
use crate::sentence::{point_sentence, sentence};
use crate::sums::too_large_at;
use crate::variables::variables_of;
use fz_bounds::{Bounds, cannot_hold};
use fz_filling::{Completion, Fault, Giver, Reason, Verdict};
use fz_index::Narrowing;
use fz_places::NameTable;
use fz_reasons::{Told, reason_at};
use fz_store::{Goal, Model, Partial, Point, Term};
use fz_tree::{Ast, Basic, Goal as GoalItem, Span};
use std::alloc::{AllocError, Global};

/// What is said of a point that no block can satisfy.
const NEVER: &str = "no values of the declared domains satisfy it";

/// A case with the model's text, tree and table of names, and the block's filling with its steps.
#[derive(Clone, Copy)]
pub(crate) struct Reading<'s, 'e, 'a, 't, 'n> {
    pub alloc: Global,
    pub case: &'s Case<'e, 'a>,
    pub model: &'s Model<'a>,
    pub text: Text<'t>,
    pub ast: &'s Ast<'t>,
    pub names: &'s NameTable<'n>,
    pub completion: Completion,
    pub filling: &'s Partial,
    pub steps: &'s [Giver],
}

impl Reading<'_, '_, '_, '_, '_> {
    /// The steps of the filling, and these to bounds, by their variables.
    pub(crate) fn past<'r>(&self, steps: &'r [Narrowing]) -> Result<Past<'r>, AllocError> {
        let variables = self.model.variables().len();
        Past::new(self.alloc, variables, self.steps, steps)
    }
}

/// The point that the verdict on a case is about; none of a printed name or the objective.
fn verdict_point<'a>(verdict: Verdict<'a>) -> Option<Point<'a>> {
    match verdict {
        Verdict::Violated(Fault::Domain(name)) | Verdict::Undecided(Reason::NoValue(name)) => {
            Some(Point::Domain(name))
        }
        Verdict::Violated(Fault::Definition(name)) => Some(Point::Definition(name)),
        Verdict::Violated(Fault::Constraint(number, name))
        | Verdict::Undecided(Reason::Unknown(number, name)) => {
            Some(Point::Constraint(number, name))
        }
        Verdict::Undecided(Reason::TooLarge(number)) => Some(Point::Constraint(number, b"")),
        Verdict::Satisfied
        | Verdict::Violated(Fault::Printed(_) | Fault::NotBetter(_, _))
        | Verdict::Undecided(Reason::NotShownBetter(_, _)) => None,
    }
}

/// The text that the verdict on a case is about, and the byte range in it: of a printed name, of
/// the objective, or of a point's name.
pub(crate) fn verdict_place<'t>(
    ast: &Ast<'_>,
    text: Text<'t>,
    case: &Case<'t, '_>,
) -> Option<(Text<'t>, Span)> {
    match case.verdict {
        Verdict::Violated(Fault::Printed(name)) => {
            Some((case.stream, printed_place(case, name)?))
        }
        Verdict::Violated(Fault::NotBetter(_, _))
        | Verdict::Undecided(Reason::NotShownBetter(_, _)) => Some((text, objective_place(ast)?)),
        verdict => Some((text, point_place(ast, &verdict_point(verdict)?)?)),
    }
}

/// What is wrong with a block: the message on its verdict, and one on each other point that fails,
/// as far as they are told.
#[derive(Drop)]
pub struct Faults {
    pub messages: Vec<Message>,
    /// How many points that fail are left out.
    pub left_out: usize,
}

impl Faults {
    /// The text of all messages, of which each line ends with LF.
    ///
    /// # Errors
    ///
    /// Out of memory.
    pub fn text(&self, alloc: Global) -> Result<String, AllocError> {
        let mut text = String::new(alloc);
        for message in &self.messages {
            text.push_str(&message.text(alloc)?)?;
        }
        if self.left_out > 0 {
            writeln!(text, "... and {} more points fail", self.left_out)?;
        }
        Ok(text)
    }
}

/// The messages on a case: at most so many, of which the first is on its verdict. Where only that
/// is wanted, no other points are looked for.
pub(crate) fn faults_of(reading: &Reading, most: usize) -> Result<Faults, AllocError> {
    let mut faults = Faults {
        messages: Vec::new(reading.alloc),
        left_out: 0,
    };
    if let Some(message) = verdict_message(reading)? {
        faults.messages.push(message)?;
    }
    if most > 1 {
        add_failing(reading, &mut faults, most)?;
    }
    Ok(faults)
}

/// Adds the messages on the points that fail, but for the one that the verdict is about.
fn add_failing(reading: &Reading, faults: &mut Faults, most: usize) -> Result<(), AllocError> {
    let points = failing_points(reading.alloc, reading.model, reading.filling)?;
    let told = is_on_a_point(reading.case) as usize;
    for point in points.iter().skip(told) {
        if faults.messages.len() >= most {
            faults.left_out = faults.left_out.saturating_add(1);
        } else if *point < reading.model.points()
            && let Some(message) = point_message(reading, *point)?
        {
            faults.messages.push(message)?;
        }
    }
    Ok(())
}

/// Whether the verdict on a case is about the first point that fails.
fn is_on_a_point(case: &Case<'_, '_>) -> bool {
    match case.verdict {
        Verdict::Violated(fault) => {
            case.refuted.is_none() && !matches!(fault, Fault::Printed(_) | Fault::NotBetter(_, _))
        }
        Verdict::Satisfied | Verdict::Undecided(_) => false,
    }
}

/// The message on a point that fails.
fn point_message(reading: &Reading, number: usize) -> Result<Option<Message>, AllocError>
    requires in_range { number < length (points reading.now.model.now) }
{
    let point = reading.model.point(number);
    let Some(place) = point_place(reading.ast, &point) else {
        return Ok(None);
    };
    let said = point_sentence(reading.alloc, &point, reading.case.number)?;
    let mut message = message_at(reading.alloc, &reading.text, place, said)?;
    if let Some(message) = &mut message {
        note_text(reading, message, &point)?;
        note_point(reading, message, number)?;
    }
    Ok(message)
}

/// The message on the verdict of a case.
fn verdict_message(reading: &Reading) -> Result<Option<Message>, AllocError> {
    let case = reading.case;
    let Some((text, place)) = verdict_place(reading.ast, reading.text, case) else {
        return Ok(None);
    };
    let said = sentence(reading.alloc, case)?;
    let mut message = message_at(reading.alloc, &text, place, said)?;
    if let Some(message) = &mut message {
        note_verdict(reading, message)?;
    }
    Ok(message)
}

/// Adds the notes on the verdict: where it is a violation, on the first point that fails, or else
/// on the bounds that refute the block.
fn note_verdict(reading: &Reading, message: &mut Message) -> Result<(), AllocError> {
    let case = reading.case;
    if let Some(point) = verdict_point(case.verdict) {
        note_text(reading, message, &point)?;
    }
    match case.verdict {
        Verdict::Satisfied => {}
        Verdict::Violated(Fault::Printed(name)) => note_printed(reading, message, name)?,
        Verdict::Violated(Fault::NotBetter(now, before))
        | Verdict::Undecided(Reason::NotShownBetter(now, before)) => {
            note_objective(reading, message, before, now)?
        }
        Verdict::Violated(_) => match case.refuted {
            Some(refutation) => note_refutation(reading, message, refutation)?,
            None => note_first(reading, message, Sought::Failing)?,
        },
        Verdict::Undecided(_) => note_first(reading, message, Sought::Undecided)?,
    }
    note_help(reading, message)
}

/// Adds notes on the first point of this kind.
fn note_first(reading: &Reading, message: &mut Message, sought: Sought) -> Result<(), AllocError> {
    match first_point(reading.alloc, reading.model, reading.filling, sought)? {
        Some(point) => note_point(reading, message, point),
        None => Ok(()),
    }
}

/// Adds what the text of the model has at the point of a verdict: what the compiler wrote there,
/// and the values that are fixed.
fn note_text(
    reading: &Reading,
    message: &mut Message,
    point: &Point<'_>,
) -> Result<(), AllocError> {
    message.remarks.add_point(reading, point)?;
    if let Point::Constraint(number, _) = point
        && let Some(constraint) = constraint_of(reading.ast, *number)
    {
        note_fixed(reading, message, constraint)?;
    }
    Ok(())
}

fn note_point(reading: &Reading, message: &mut Message, point: usize) -> Result<(), AllocError>
    requires in_range { point < length (points reading.now.model.now) }
{
    let (alloc, model) = (reading.alloc, reading.model);
    note_reason(reading, message, point)?;
    note_chain(reading, message, point, &reading.past(&[])?)?;
    note_fault_of_model(reading, message, point)?;
    if let Some(domain) = declared_domain(model, point) {
        note_domain(reading, message, &model.point(point), domain)?;
    }
    if let Some(place) = too_large_at(alloc, model, reading.filling, point)? {
        let mut told = Phrase::of_words(alloc, "the sum leaves 128 bits at element ")?;
        told.number(place)?;
        message.note(told)?;
    }
    Ok(())
}

/// Adds that the model is wrong, and not the block, where the declared domains alone refute a point.
fn note_fault_of_model(
    reading: &Reading,
    message: &mut Message,
    point: usize,
) -> Result<(), AllocError>
    requires in_range { point < length (points reading.now.model.now) }
{
    let (alloc, model) = (reading.alloc, reading.model);
    let bounds = Bounds::new(alloc, model, &Partial::new(alloc, model)?)?;
    if cannot_hold(alloc, model, point, &bounds)? {
        message.note(Phrase::of_words(alloc, NEVER)?)?;
    }
    Ok(())
}

/// Adds why a point fails, and notes on its variables.
fn note_reason(reading: &Reading, message: &mut Message, point: usize) -> Result<(), AllocError>
    requires in_range { point < length (points reading.now.model.now) }
{
    let variables = variables_of(reading.alloc, reading.model, point)?;
    match reason_at(reading.alloc, reading.model, reading.filling, point)? {
        Some(told) => note_told(reading, message, &variables, &told),
        None => note_variables(reading, message, &variables, &[]),
    }
}

fn note_told(
    reading: &Reading,
    message: &mut Message,
    variables: &[usize],
    told: &Told,
) -> Result<(), AllocError> {
    let mut reason = Phrase::new(reading.alloc);
    push_told(reading, &mut reason, told)?;
    message.reason = Some(reason);
    note_variables(reading, message, variables, &told.who)
}

/// Adds notes on the objective: the variable that it is, what is said of the block before, and its
/// value.
fn note_objective(
    reading: &Reading,
    message: &mut Message,
    before: i64,
    now: i64,
) -> Result<(), AllocError> {
    let variable = match reading.model.goal() {
        Goal::Minimize(Term::Var(number)) | Goal::Maximize(Term::Var(number)) => Some(*number),
        _ => None,
    };
    if let Some(number) = variable {
        note_variables(reading, message, &[number], &[])?;
    }
    let told = objectives(reading, owner_of(reading, variable), before, now)?;
    message.note(told)
}

/// What the objective is in the block of a case, and what it is in the block before, or was found
/// for that.
fn objectives(
    reading: &Reading,
    owner: Option<Owner<'_>>,
    before: i64,
    now: i64,
) -> Result<Phrase, AllocError> {
    let number = reading.case.number;
    let earlier = number.saturating_sub(1);
    let mut told = Phrase::new(reading.alloc);
    if let Verdict::Violated(_) = reading.case.verdict {
        push_objective(&mut told, "block ", earlier, owner, before)?;
    } else {
        told.value(owner, before)?;
        told.words(" was found for block ")?;
        told.number(earlier)?;
    }
    push_objective(&mut told, ", and block ", number, owner, now)?;
    Ok(told)
}

/// Adds what the objective is in a block.
fn push_objective(
    told: &mut Phrase,
    front: &str,
    block: usize,
    owner: Option<Owner<'_>>,
    value: i64,
) -> Result<(), AllocError> {
    told.words(front)?;
    told.number(block)?;
    told.words(" has ")?;
    told.value(owner, value)
}

fn objective_place(ast: &Ast<'_>) -> Option<Span> {
    match &ast.solve.goal {
        GoalItem::Minimize(basic) | GoalItem::Maximize(basic) => Some(basic_place(basic)),
        GoalItem::Satisfy => None,
    }
}

fn basic_place(basic: &Basic<'_>) -> Span {
    match basic {
        Basic::Lit(literal) => literal.span,
        Basic::Named(name) => name.span,
    }
}
