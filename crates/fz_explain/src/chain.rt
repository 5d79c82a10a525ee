//! Why values are given and bounds are narrowed, down to what was printed: of a variable whose
//! value a constraint gave the reason for it, then those for the values that it was given from; of
//! bounds what narrowed them, then the values and bounds that this is from. Each constraint gives
//! one reason for a value, and each printed value, each domain and each step is told once.

ghost use Rattle.std.specs.Prelude.{◌<◌, length};
ghost use Rattle.fz_filling.specs.of_model.Meaning.{points};

use crate::bounds::push_step;
use crate::message::Message;
use crate::notes::{Known, Note, push_domain, push_told, push_valued};
use crate::parts::Phrase;
use crate::past::{Past, narrower};
use crate::variables::variables_of;
use crate::verdict::Reading;
use fz_index::{Narrower, Narrowing};
use fz_reasons::{Told, giving_at};
use fz_store::Domain;
use indexmap::IndexSet;
use std::alloc::AllocError;

/// The most lines behind the variables of a message.
const MOST_LINES: usize = 16;

/// The most variables that are looked at for one of a message.
const MOST_VARIABLES: usize = 4096;

/// What is behind a value or bounds: the value of a variable, or where it has none its bounds
/// before the step with this number.
#[derive(Clone, Copy)]
struct Ground {
    variable: usize,
    before: Option<usize>,
}

/// What a line tells.
#[derive(Drop)]
enum Finding {
    /// The value of a variable, and the reason why a point gave it.
    Reason(usize, Told),
    /// A step to bounds.
    Step(Narrowing),
    /// The domain of the variable with this number.
    Domain(usize),
    /// The printed value of the variable with this number.
    Printed(usize),
}

/// The steps, what is looked at for a variable of the message, and what is told so far.
#[derive(Drop)]
struct Chain<'r, 's, 'e, 'a, 't, 'n> {
    reading: &'r Reading<'s, 'e, 'a, 't, 'n>,
    past: &'r Past<'r>,
    waiting: Vec<Ground>,
    /// The points that gave values.
    givers: IndexSet<usize>,
    /// The variables whose printed value or domain is told.
    variables: IndexSet<usize>,
    /// The steps that are told.
    taken: IndexSet<usize>,
    /// How many lines there are.
    count: usize,
}

/// Adds to each variable of a message on a point why it has its value, or its bounds, by the steps
/// that led there.
pub(crate) fn note_chain<'r>(
    reading: &'r Reading,
    message: &mut Message,
    point: usize,
    past: &'r Past<'r>,
) -> Result<(), AllocError> {
    Chain::new(reading, past).note(message, point)
}

impl<'r, 's, 'e, 'a, 't, 'n> Chain<'r, 's, 'e, 'a, 't, 'n> {
    fn new(
        reading: &'r Reading<'s, 'e, 'a, 't, 'n>,
        past: &'r Past<'r>,
    ) -> Chain<'r, 's, 'e, 'a, 't, 'n> {
        let alloc = reading.alloc;
        Chain {
            reading,
            past,
            waiting: Vec::new(alloc),
            givers: IndexSet::new(alloc),
            variables: IndexSet::new(alloc),
            taken: IndexSet::new(alloc),
            count: 0,
        }
    }

    /// Adds the lines to the variables of a message on a point. What it tells of these by itself is
    /// told.
    fn note(&mut self, message: &mut Message, point: usize) -> Result<(), AllocError> {
        self.givers.insert(point)?;
        for note in &message.variables {
            self.variables.insert(note.number)?;
            if let Some(step) = self.past.last(note.number) {
                self.taken.insert(step)?;
            }
        }
        for place in 0..message.variables.len() {
            self.explain(&mut message.variables[place])?;
        }
        message.behind_left_out = self.count.saturating_sub(MOST_LINES);
        Ok(())
    }

    /// Adds the lines on what is behind that which a message tells of a variable.
    fn explain(&mut self, note: &mut Note) -> Result<(), AllocError> {
        self.waiting.clear();
        match &note.known {
            Known::Value(_) => self.wait_for(note.number, None)?,
            Known::Narrowed(_) => {
                if let Some(step) = self.past.last(note.number) {
                    self.wait_for_step(step)?;
                }
            }
            Known::Within(_) | Known::Nothing => {}
        }
        self.follow(&mut note.behind)
    }

    /// Adds a ground, unless so many wait as are looked at.
    fn wait_for(&mut self, variable: usize, before: Option<usize>) -> Result<(), AllocError> {
        if self.waiting.len() < MOST_VARIABLES {
            self.waiting.push(Ground { variable, before })?;
        }
        Ok(())
    }

    /// Adds what is behind the step with this number: the variables of its point, or the bounds in
    /// which a number was tried.
    fn wait_for_step(&mut self, number: usize) -> Result<(), AllocError> {
        let Some(step) = self.past.steps.get(number) else {
            return Ok(());
        };
        match step.by {
            Narrower::Point(point) => self.wait_for_point(point, Some(number)),
            Narrower::Trial(_) => self.wait_for(step.left.variable, Some(number)),
        }
    }

    /// Adds the variables of a point, where there is one with this number.
    fn wait_for_point(&mut self, point: usize, before: Option<usize>) -> Result<(), AllocError> {
        let reading = self.reading;
        if point < reading.model.points() {
            for variable in variables_of(reading.alloc, reading.model, point)? {
                self.wait_for(variable, before)?;
            }
        }
        Ok(())
    }

    /// Adds the lines on the grounds that wait and on what is behind them, nearest first. Of more
    /// than there may be the others are counted.
    fn follow(&mut self, lines: &mut Vec<Phrase>) -> Result<(), AllocError> {
        for place in 0..MOST_VARIABLES {
            let Some(&ground) = self.waiting.get(place) else {
                break;
            };
            if let Some(finding) = self.look_at(ground)? {
                if self.count < MOST_LINES {
                    lines.push(line_on(self.reading, &finding)?)?;
                }
                self.count = self.count.saturating_add(1);
            }
        }
        Ok(())
    }

    /// What there is to tell of a ground.
    fn look_at(&mut self, ground: Ground) -> Result<Option<Finding>, AllocError> {
        let Ground { variable, before } = ground;
        match before {
            Some(step) if !self.reading.filling.has(variable) => self.look_before(variable, step),
            _ => self.look_at_value(variable),
        }
    }

    /// The bounds of a variable before the step with this number: those of another point or of its
    /// domain, where that isn't told.
    fn look_before(
        &mut self,
        variable: usize,
        number: usize,
    ) -> Result<Option<Finding>, AllocError> {
        let Some(step) = self.past.steps.get(number) else {
            return Ok(None);
        };
        match self.past.before(variable, number, narrower(step)) {
            Some(before) => self.look_at_step(before),
            None if step.left.variable == variable => Ok(None),
            None => self.look_at_domain(variable),
        }
    }

    /// A step, where that isn't told.
    fn look_at_step(&mut self, number: usize) -> Result<Option<Finding>, AllocError> {
        let is_new = self.taken.insert(number)?;
        let Some(step) = self.past.steps.get(number) else {
            return Ok(None);
        };
        if !is_new {
            return Ok(None);
        }
        self.wait_for_step(number)?;
        Ok(Some(Finding::Step(*step)))
    }

    /// The domain of a variable, where that isn't told and isn't all values.
    fn look_at_domain(&mut self, variable: usize) -> Result<Option<Finding>, AllocError> {
        let is_new = self.variables.insert(variable)?;
        match self.reading.model.variables().get(variable) {
            Some(declared) if is_new && !matches!(declared.domain, Domain::All) => {
                Ok(Some(Finding::Domain(variable)))
            }
            _ => Ok(None),
        }
    }

    /// A value: the reason for it, where it was given, or else that it is printed, where bounds are
    /// from it.
    fn look_at_value(&mut self, variable: usize) -> Result<Option<Finding>, AllocError> {
        if !self.reading.filling.has(variable) {
            return Ok(None);
        }
        match self.past.giver(variable) {
            Some(point) => self.look_at_giver(variable, point),
            None => self.look_at_printed(variable),
        }
    }

    /// The reason why a point gave a variable its value, where none of this point is told.
    fn look_at_giver(
        &mut self,
        variable: usize,
        point: usize,
    ) -> Result<Option<Finding>, AllocError> {
        let is_new = self.givers.insert(point)?;
        let reading = self.reading;
        if !is_new || point >= reading.model.points() {
            return Ok(None);
        }
        self.wait_for_point(point, None)?;
        reason_of(reading, variable, point)
    }

    /// A printed value, where bounds are from it and it isn't told.
    fn look_at_printed(&mut self, variable: usize) -> Result<Option<Finding>, AllocError> {
        if self.past.steps.is_empty() {
            return Ok(None);
        }
        let is_new = self.variables.insert(variable)?;
        if !is_new {
            return Ok(None);
        }
        Ok(Some(Finding::Printed(variable)))
    }
}

/// The reason why a point gave a variable its value.
fn reason_of(
    reading: &Reading,
    variable: usize,
    point: usize,
) -> Result<Option<Finding>, AllocError>
    requires in_range { point < length (points reading.now.model.now) }
{
    match giving_at(reading.alloc, reading.model, reading.filling, point)? {
        Some(told) => Ok(Some(Finding::Reason(variable, told))),
        None => Ok(None),
    }
}

/// The line that tells what was found.
fn line_on(reading: &Reading, finding: &Finding) -> Result<Phrase, AllocError> {
    let mut line = Phrase::new(reading.alloc);
    match finding {
        Finding::Reason(variable, told) => {
            push_valued(reading, &mut line, *variable)?;
            line.words(": ")?;
            push_told(reading, &mut line, told)?;
        }
        Finding::Step(step) => push_step(reading, &mut line, step)?,
        Finding::Domain(variable) => push_declared(reading, &mut line, *variable)?,
        Finding::Printed(variable) => {
            push_valued(reading, &mut line, *variable)?;
            line.words(", printed")?;
        }
    }
    Ok(line)
}

/// Adds the domain of a variable.
fn push_declared(reading: &Reading, line: &mut Phrase, variable: usize) -> Result<(), AllocError> {
    match reading.model.variables().get(variable) {
        Some(declared) => push_domain(reading, line, declared.name, &declared.domain),
        None => Ok(()),
    }
}
