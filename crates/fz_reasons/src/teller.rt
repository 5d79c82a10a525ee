//! How a reason is put into words: what is said grows, with the names of variables in it.

use crate::told::{Piece, Sayable, Told, Who};
use fz_kernel::{ArgumentView, Elements};
use fz_store::{Argument, Builtin, ConstraintParts, Partial, Slot, part};
use std::alloc::{AllocError, Global};
use std::ops::Range;

/// The most variables that are in a reason: no list of them is shown that is as long.
const MOST_MET: usize = 16;

/// Says pieces, one behind another: words, numbers, values of variables.
macro_rules! say {
    ($teller:expr; $($piece:expr),+) => {{
        $(
            let piece = crate::told::Sayable::piece($piece);
            $teller.push(piece);
        )+
    }};
}

pub(crate) use say;

/// A constraint whose arguments have values, and what is said of it so far. Where memory runs out
/// nothing is told of it.
#[derive(Drop)]
pub(crate) struct Teller<'s, 'a> {
    pub alloc: Global,
    pub builtin: Builtin,
    pub view: ArgumentView<'s, 'a>,
    parts: ConstraintParts<'s, 'a>,
    told: Told,
    /// Whether all that was said is there.
    is_whole: bool,
}

impl<'s, 'a> Teller<'s, 'a> {
    /// Nothing is said yet of a constraint of this row.
    pub(crate) fn new(
        alloc: Global,
        builtin: Builtin,
        parts: ConstraintParts<'s, 'a>,
        filling: &'s Partial,
    ) -> Teller<'s, 'a> {
        Teller {
            alloc,
            builtin,
            view: ArgumentView::new(parts, filling),
            parts,
            told: Told {
                pieces: Vec::new(alloc),
                who: Vec::new(alloc),
            },
            is_whole: true,
        }
    }

    /// What was said, if anything was.
    ///
    /// # Errors
    ///
    /// Memory ran out for what was said.
    pub(crate) fn told(self) -> Result<Option<Told>, AllocError> {
        match self.is_whole {
            true if self.told.pieces.is_empty() => Ok(None),
            true => Ok(Some(self.told)),
            false => Err(AllocError),
        }
    }

    /// Says a piece: `say!` calls this.
    pub(crate) fn push(&mut self, piece: Piece) {
        self.is_whole &= self.told.pieces.push(piece).is_ok();
    }

    pub(crate) fn say(&mut self, words: &'static str) {
        self.push(Piece::Words(words));
    }

    /// A value as that of what is at a place of an argument, where this is a variable.
    pub(crate) fn value<S: Sayable>(&self, argument: usize, place: usize, value: S) -> Piece {
        value.piece().of(self.variable(argument, place))
    }

    /// Says a variable by its name.
    pub(crate) fn name(&mut self, variable: usize) {
        self.push(Piece::Name(variable));
        self.meet(variable, None);
    }

    /// Says the name of an argument with a sign of equality, where it is a variable.
    pub(crate) fn name_equal(&mut self, argument: usize) {
        if let Some(variable) = self.variable(argument, 0) {
            self.name(variable);
            self.say(" = ");
        }
    }

    /// Says the name of what is at a place of an argument in brackets, where it is a variable.
    pub(crate) fn bracket(&mut self, argument: usize, place: usize) {
        if let Some(variable) = self.variable(argument, place) {
            self.say(" (");
            self.name(variable);
            self.say(")");
        }
    }

    /// What is at a place of an argument is in the reason, as this with its number from 1.
    pub(crate) fn meet_as(&mut self, argument: usize, place: usize, role: &str) {
        if let Some(variable) = self.variable(argument, place) {
            match format!(in self.alloc; "{role} {}", from_one(place)) {
                Ok(role) => self.meet(variable, Some(role)),
                Err(_) => self.is_whole = false,
            }
        }
    }

    /// What is at a place of each of these arguments is in the reason, as this.
    pub(crate) fn meet_each(&mut self, arguments: Range<usize>, place: usize, role: &str) {
        for argument in arguments {
            self.meet_as(argument, place, role);
        }
    }

    /// What is at a place of an argument is in the reason.
    pub(crate) fn meet_at(&mut self, argument: usize, place: usize) {
        if let Some(variable) = self.variable(argument, place) {
            self.meet(variable, None);
        }
    }

    fn meet(&mut self, variable: usize, role: Option<String>) {
        let mut is_new = self.told.who.len() < MOST_MET;
        for who in &self.told.who {
            is_new &= who.variable != variable;
        }
        if is_new {
            self.is_whole &= self.told.who.push(Who { variable, role }).is_ok();
        }
    }

    /// The elements of a list that are this number are in the reason.
    pub(crate) fn meet_equal(&mut self, argument: usize, value: i64) {
        let elements = self.view.elements(argument);
        for place in 0..elements.len() {
            if elements.int(place) == value {
                self.meet_at(argument, place);
            }
        }
    }

    /// A variable among the elements of a list: the first that is this number, or else the first.
    pub(crate) fn one_of(&self, argument: usize, value: i64) -> Option<usize> {
        let elements = self.view.elements(argument);
        let mut first = None;
        for place in 0..elements.len() {
            let variable = self.variable(argument, place);
            if variable.is_some() && elements.int(place) == value {
                return variable;
            }
            first = first.or(variable);
        }
        first
    }

    /// The variable that is at a place of an argument. A scalar is at the place 0 of its own.
    pub(crate) fn variable(&self, argument: usize, place: usize) -> Option<usize> {
        let slot = match self.parts.arguments().get(argument)? {
            Argument::One(Slot::Array(number)) => {
                self.parts
                    .arrays
                    .get(*number as usize)?
                    .elements
                    .slots
                    .get(place)?
            }
            Argument::One(slot) => slot,
            Argument::List(segment) => part(&self.parts.store.slots, *segment).get(place)?,
        };
        match slot {
            Slot::Variable(number) => Some(*number as usize),
            _ => None,
        }
    }
}

/// An index that is counted from 0, from 1.
pub(crate) fn from_one(place: usize) -> usize {
    place.saturating_add(1)
}
