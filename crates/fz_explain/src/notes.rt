//! The notes of a message on variables, with their values or bounds and where these come from, and
//! on domains.

use crate::amounts::{fixing_phrase, push_ends, push_set, push_value};
use crate::bounds::{Bounds, push_bounds};
use crate::excerpt::{push_shown, shown_text};
use crate::explained::{Explained, explain};
use crate::fixed::{Fixing, fixing_of};
use crate::message::Message;
use crate::naming::{best_name, model_name};
use crate::parts::{Owner, Phrase, push_phrases};
use crate::place::point_place;
use crate::remarks::Remarks;
use crate::source::Source;
use crate::verdict::Reading;
use fz_places::{Value, spot_of};
use fz_reasons::{Piece, Told, Who};
use fz_store::{Domain, Model, Point};
use fz_tree::{Basic, Constraint, Expr};
use indexmap::IndexSet;
use std::alloc::{AllocError, Global};
use std::slice;

/// What is said of a variable without a value.
const NOT_GIVEN: &str = "it isn't printed, and what is printed doesn't give it";

/// What a message says of a variable.
#[derive(Drop)]
pub struct Note {
    /// The variable's number.
    pub number: usize,
    /// What it is in the reason, as `task 4`, where that is said there and not its name.
    pub role: Option<String>,
    pub name: String,
    /// Its name in the MiniZinc model, as `a[1,2]`, where that is another.
    pub element: Option<String>,
    pub known: Known,
    pub origin: Origin,
    /// Why the value is given, and those that it is from, each as `name = value: reason`, down to
    /// what was printed; or what bounds are from.
    pub behind: Vec<Phrase>,
}

/// What is known of a variable.
#[derive(Drop)]
pub enum Known {
    Value(Value),
    /// The bounds to which it is narrowed.
    Narrowed(Bounds),
    /// The bounds of its domain, which nothing narrows.
    Within(Bounds),
    Nothing,
}

/// A parameter or an array without variables, and what it is, as `[3,2,1]`.
#[derive(Drop)]
pub struct FixedNote {
    pub name: String,
    /// Its name in the MiniZinc model, where that is another.
    pub element: Option<String>,
    pub value: Phrase,
}

/// Where a value is from, or what narrowed bounds.
#[derive(Drop)]
pub enum Origin {
    Printed,
    /// The point that gave it, in words, its line in the model's text, but for a domain, and what
    /// the compiler wrote at it, where it is a constraint.
    Given(Phrase, Option<usize>, Remarks),
    /// There is no value.
    Nothing,
}

/// Adds notes on variables, first those that a reason speaks of: of more than twelve, on the first
/// eight and the last four.
pub(crate) fn note_variables(
    reading: &Reading,
    message: &mut Message,
    variables: &[usize],
    who: &[Who],
) -> Result<(), AllocError> {
    let mut ordered = IndexSet::new(reading.alloc);
    add_in_order(&mut ordered, variables, who)?;
    note_ordered(reading, message, ordered.as_slice(), who)
}

/// Adds variables, first those that a reason speaks of.
fn add_in_order(
    ordered: &mut IndexSet<usize>,
    variables: &[usize],
    who: &[Who],
) -> Result<(), AllocError> {
    for one in who {
        ordered.insert(one.variable)?;
    }
    for variable in variables {
        ordered.insert(*variable)?;
    }
    Ok(())
}

fn note_ordered(
    reading: &Reading,
    message: &mut Message,
    variables: &[usize],
    who: &[Who],
) -> Result<(), AllocError> {
    let told = explain(reading.alloc, reading.filling, reading.steps, variables)?;
    message.left_out = told.left_out;
    for explained in told.variables {
        let note = note_on(reading, explained, who)?;
        message.variables.push(note)?;
    }
    Ok(())
}

fn note_on(reading: &Reading, explained: Explained, who: &[Who]) -> Result<Note, AllocError> {
    let Explained {
        variable,
        value,
        source,
    } = explained;
    let mut note = Note::new(reading.alloc, variable, known_of(value));
    note.tell(reading, source, who)?;
    Ok(note)
}

fn known_of(value: Option<Value>) -> Known {
    match value {
        Some(value) => Known::Value(value),
        None => Known::Nothing,
    }
}

/// What a variable is in a reason, where that is said.
fn role_of(alloc: Global, who: &[Who], variable: usize) -> Result<Option<String>, AllocError> {
    for one in who {
        if one.variable == variable {
            return match &one.role {
                Some(role) => Ok(Some(String::from_str(alloc, role)?)),
                None => Ok(None),
            };
        }
    }
    Ok(None)
}

impl Note {
    /// The note on a variable, of which neither its name nor an origin is told yet.
    pub(crate) fn new(alloc: Global, variable: usize, known: Known) -> Note {
        Note {
            number: variable,
            role: None,
            name: String::new(alloc),
            element: None,
            known,
            origin: Origin::Nothing,
            behind: Vec::new(alloc),
        }
    }

    /// Tells the names of the variable.
    pub(crate) fn tell_names(&mut self, reading: &Reading) -> Result<(), AllocError> {
        let name = name_at(reading.model, self.number);
        push_shown(&mut self.name, "", name, "")?;
        self.element = model_name(reading.alloc, reading.names, reading.ast, name)?;
        Ok(())
    }

    /// Tells the names, the origin of the value, and what the variable is in a reason.
    fn tell(&mut self, reading: &Reading, source: Source, who: &[Who]) -> Result<(), AllocError> {
        self.tell_names(reading)?;
        self.role = role_of(reading.alloc, who, self.number)?;
        self.origin = origin_of(reading, source)?;
        Ok(())
    }

    /// Adds the lines of the note, with this at the front of each: the note in words, where the
    /// constraint is from that gave the value, and what is behind.
    pub(crate) fn push_to(&self, text: &mut String, front: &str) -> Result<(), AllocError> {
        write!(text, "{front} ")?;
        if let Some(role) = &self.role {
            write!(text, "{role}: ")?;
        }
        push_name(text, &self.name, &self.element)?;
        let mut known = Phrase::new(*text.allocator());
        self.push_known(&mut known)?;
        self.origin.push_to(&mut known)?;
        known.push_to(text)?;
        text.push_str("\n")?;
        if let Origin::Given(_, _, remarks) = &self.origin {
            remarks.push_to(text, front, "   ")?;
        }
        push_phrases(text, front, "   ", &self.behind)
    }

    /// Adds what is known of the variable behind its name.
    fn push_known(&self, phrase: &mut Phrase) -> Result<(), AllocError> {
        match &self.known {
            Known::Value(value) => push_value(phrase, " = ", None, value)?,
            Known::Narrowed(bounds) => push_bounds(phrase, " is narrowed to ", None, *bounds)?,
            Known::Within(bounds) => push_bounds(phrase, " is ", None, *bounds)?,
            Known::Nothing => return phrase.words(" = none: "),
        }
        phrase.words(", ")
    }
}

impl Origin {
    /// Adds the origin in words.
    pub(crate) fn push_to(&self, phrase: &mut Phrase) -> Result<(), AllocError> {
        match self {
            Origin::Printed => phrase.words("printed"),
            Origin::Given(giver, line, _) => {
                phrase.words("by ")?;
                phrase.append(giver)?;
                push_line(phrase, *line)
            }
            Origin::Nothing => phrase.words(NOT_GIVEN),
        }
    }
}

fn push_line(phrase: &mut Phrase, line: Option<usize>) -> Result<(), AllocError> {
    let Some(line) = line else {
        return Ok(());
    };
    phrase.words(", ")?;
    phrase.line(line)
}

impl FixedNote {
    /// Adds the line of the note, with this at its front.
    pub(crate) fn push_to(&self, text: &mut String, front: &str) -> Result<(), AllocError> {
        write!(text, "{front} ")?;
        push_name(text, &self.name, &self.element)?;
        text.push_str(" = ")?;
        self.value.push_to(text)?;
        text.push_str(", fixed\n")
    }
}

/// Adds a name, behind the one in the MiniZinc model.
fn push_name(text: &mut String, name: &str, element: &Option<String>) -> Result<(), AllocError> {
    match element {
        Some(element) => write!(text, "{element} ({name})"),
        None => text.push_str(name),
    }
}

/// Adds a variable with its value, by its name in the MiniZinc model where it has one.
pub(crate) fn push_valued(
    reading: &Reading,
    phrase: &mut Phrase,
    variable: usize,
) -> Result<(), AllocError> {
    push_variable(reading, phrase, variable)?;
    match reading.filling.get(variable) {
        Some(value) => push_value(phrase, " = ", owner_of(reading, Some(variable)), value),
        None => Ok(()),
    }
}

/// Whose a value is, where it is a variable's.
pub(crate) fn owner_of<'s>(
    reading: &Reading<'s, '_, '_, '_, '_>,
    variable: Option<usize>,
) -> Option<Owner<'s>> {
    let name = name_at(reading.model, variable?);
    Some(Owner::of(name))
}

/// Adds a variable's name in the MiniZinc model where it has one, else in this.
pub(crate) fn push_variable(
    reading: &Reading,
    phrase: &mut Phrase,
    variable: usize,
) -> Result<(), AllocError> {
    push_best_name(reading, phrase, name_at(reading.model, variable))
}

fn push_best_name(reading: &Reading, phrase: &mut Phrase, name: &[u8]) -> Result<(), AllocError> {
    let best = best_name(reading.alloc, reading.names, reading.ast, name)?;
    phrase.variable(Owner::of(name), &best)
}

/// Adds a reason in words, with the names of its variables.
pub(crate) fn push_told(
    reading: &Reading,
    phrase: &mut Phrase,
    told: &Told,
) -> Result<(), AllocError> {
    for piece in &told.pieces {
        match *piece {
            Piece::Words(said) => phrase.words(said)?,
            Piece::Name(variable) => push_variable(reading, phrase, variable)?,
            Piece::Number(number, variable) => {
                phrase.value(owner_of(reading, variable), number)?;
            }
            Piece::Truth(truth, variable) => phrase.truth(owner_of(reading, variable), truth)?,
        }
    }
    Ok(())
}

/// The name of a variable, or an empty text where there is no such variable.
pub(crate) fn name_at<'m>(model: &'m Model<'_>, variable: usize) -> &'m [u8] {
    match model.variables().get(variable) {
        Some(variable) => variable.name,
        None => b"",
    }
}

fn origin_of(reading: &Reading, source: Source) -> Result<Origin, AllocError> {
    match source {
        Source::Printed => Ok(Origin::Printed),
        Source::Given(point) if point < reading.model.points() => {
            giver_of(reading, &reading.model.point(point))
        }
        _ => Ok(Origin::Nothing),
    }
}

/// The point that gave a value.
pub(crate) fn giver_of(reading: &Reading, point: &Point<'_>) -> Result<Origin, AllocError> {
    let alloc = reading.alloc;
    match point {
        Point::Domain(_) => by_its_domain(alloc),
        Point::Definition(name) => {
            let mut giver = Phrase::of_words(alloc, "definition of ")?;
            giver.shown(name)?;
            Ok(Origin::Given(giver, line_of(reading, point), Remarks::none(alloc)))
        }
        Point::Constraint(number, name) => {
            let mut giver = Phrase::of_words(alloc, "constraint ")?;
            giver.number(*number)?;
            giver.words(" ")?;
            giver.shown(name)?;
            let mut remarks = Remarks::none(alloc);
            remarks.add_point(reading, point)?;
            Ok(Origin::Given(giver, line_of(reading, point), remarks))
        }
    }
}

/// The line in the model's text of a point.
fn line_of(reading: &Reading, point: &Point<'_>) -> Option<usize> {
    let place = point_place(reading.ast, point)?;
    Some(spot_of(reading.text.bytes, place.start).line)
}

pub(crate) fn by_its_domain(alloc: Global) -> Result<Origin, AllocError> {
    let giver = Phrase::of_words(alloc, "its domain")?;
    Ok(Origin::Given(giver, None, Remarks::none(alloc)))
}

/// Adds notes on the parameters and the arrays without variables that a constraint names.
pub(crate) fn note_fixed(
    reading: &Reading,
    message: &mut Message,
    constraint: &Constraint<'_>,
) -> Result<(), AllocError> {
    for arg in &constraint.args {
        for basic in basics_of(arg) {
            if let Basic::Named(named) = basic {
                note_named(reading, message, named.text)?;
            }
        }
    }
    Ok(())
}

fn basics_of<'t, 'a>(arg: &'t Expr<'a>) -> &'t [Basic<'a>] {
    match arg {
        Expr::One(basic) => slice::from_ref(basic),
        Expr::List(basics) => basics,
    }
}

fn note_named(reading: &Reading, message: &mut Message, name: &[u8]) -> Result<(), AllocError> {
    if is_told(reading.alloc, &message.fixed, name)? {
        return Ok(());
    }
    match fixing_of(reading.alloc, reading.model, name)? {
        Some(fixing) => note_fixing(reading, message, name, &fixing),
        None => Ok(()),
    }
}

fn is_told(alloc: Global, fixed: &[FixedNote], name: &[u8]) -> Result<bool, AllocError> {
    let name = shown_text(alloc, name)?;
    Ok(fixed.iter().any(|note| note.name == name))
}

fn note_fixing(
    reading: &Reading,
    message: &mut Message,
    name: &[u8],
    fixing: &Fixing,
) -> Result<(), AllocError> {
    let value = fixing_phrase(reading.alloc, name, fixing)?;
    let element = model_name(reading.alloc, reading.names, reading.ast, name)?;
    let name = shown_text(reading.alloc, name)?;
    Ok(
        message.fixed.push(FixedNote {
            name,
            element,
            value,
        })?,
    )
}

/// Adds the note on the domain of a name; there is none on a domain of all values.
pub(crate) fn note_domain(
    reading: &Reading,
    message: &mut Message,
    point: &Point<'_>,
    domain: &Domain,
) -> Result<(), AllocError> {
    let (Point::Domain(name) | Point::Definition(name) | Point::Constraint(_, name)) = point;
    let mut told = Phrase::new(reading.alloc);
    push_domain(reading, &mut told, name, domain)?;
    if told.is_empty() {
        return Ok(());
    }
    message.note(told)
}

/// Adds what is said of the domain of a name: nothing of all values.
pub(crate) fn push_domain(
    reading: &Reading,
    phrase: &mut Phrase,
    name: &[u8],
    domain: &Domain,
) -> Result<(), AllocError> {
    if let Domain::All = domain {
        return Ok(());
    }
    phrase.words("the domain of ")?;
    push_best_name(reading, phrase, name)?;
    phrase.words(" is ")?;
    let owner = Some(Owner::of(name));
    match domain {
        Domain::All => Ok(()),
        Domain::Within(lo, hi) => push_ends(phrase, owner, *lo, *hi),
        Domain::Among(set) => push_set(phrase, owner, set),
    }
}
