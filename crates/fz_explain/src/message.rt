//! A message: the line and the column that it is about, what is said, the variables there and
//! notes. Its text is as a compiler writes it, with the line of the source and marks below.

ghost use Rattle.std.specs.Prelude.{◌≡◌, ◌+◌, ◌-◌, ◌<◌, suc, take, min, IfSome, IsNone};
ghost use Rattle.fz_places.specs.Lines.{characters, last_line, line_ends};

use crate::excerpt::{Excerpt, digits_of, push_line};
use crate::explained::FIRST_VARIABLES;
use crate::notes::{FixedNote, Note};
use crate::parts::{Phrase, push_phrases};
use crate::remarks::Remarks;
use fz_files::Passed;
use fz_places::{Spot, spot_of};
use fz_tree::Span;
use std::alloc::{AllocError, Global};
use std::slice;

/// A file or a stream by its name, of which the bytes behind what has passed are given.
#[derive(Clone, Copy)]
pub struct Text<'a> {
    pub name: &'a str,
    pub bytes: &'a [u8],
    pub passed: Passed,
}

impl<'a> Text<'a> {
    /// Where the byte at this offset of the whole file or stream is; none where it has passed.
    pub fn spot_at(&self, offset: usize) -> Option<Spot<'a>>
        ensures line { IfSome result (λ spot. spot.line ≡ min (self.now.passed.lines
            + suc (line_ends (take (offset - self.now.passed.bytes) self.now.bytes.now)))
            usize.MAX) }
        ensures column { IfSome result (λ spot. spot.column ≡ suc (characters (last_line
            (take (offset - self.now.passed.bytes) self.now.bytes.now)))) }
        ensures none { IsNone result → offset < self.now.passed.bytes }
    {
        let start = offset.checked_sub(self.passed.bytes)?;
        let spot = spot_of(self.bytes, start);
        Some(Spot {
            line: self.passed.lines.saturating_add(spot.line),
            ..spot
        })
    }
}

/// A message on a byte range of a text.
#[derive(Drop)]
pub struct Message {
    pub line: usize,
    pub column: usize,
    pub said: String,
    /// What the compiler wrote at the point.
    pub remarks: Remarks,
    /// Why it fails, where there is a reason to tell.
    pub reason: Option<Phrase>,
    pub variables: Vec<Note>,
    /// How many variables are left out behind the first eight.
    pub left_out: usize,
    /// How many reasons for values are left out.
    pub behind_left_out: usize,
    pub fixed: Vec<FixedNote>,
    pub notes: Vec<Phrase>,
    /// The lines of the text before those of the variables.
    head: String,
}

impl Message {
    /// Adds a note at the end.
    ///
    /// # Errors
    ///
    /// Out of memory.
    pub fn note(&mut self, told: Phrase) -> Result<(), AllocError> {
        Ok(self.notes.push(told)?)
    }

    /// The text of the message, of which each line ends with LF.
    ///
    /// # Errors
    ///
    /// Out of memory.
    pub fn text(&self, alloc: Global) -> Result<String, AllocError> {
        let digits = digits_of(self.line);
        let front = format!(in alloc; "{:digits$}    =", "")?;
        let mut text = String::from_str(alloc, &self.head)?;
        self.push_behind(&mut text, &front)?;
        Ok(text)
    }

    /// Adds the lines behind the head, with this at the front of each.
    fn push_behind(&self, text: &mut String, front: &str) -> Result<(), AllocError> {
        self.remarks.push_to(text, front, " ")?;
        if let Some(quote) = &self.remarks.quote {
            push_line(text, front, quote.line, &quote.text, quote.front, 1)?;
        }
        if let Some(told) = &self.reason {
            push_phrases(text, front, " ", slice::from_ref(told))?;
        }
        self.push_variables(text, front)?;
        for note in &self.fixed {
            note.push_to(text, front)?;
        }
        push_phrases(text, front, " ", &self.notes)
    }

    fn push_variables(&self, text: &mut String, front: &str) -> Result<(), AllocError> {
        let left_out = self.left_out;
        for (place, note) in self.variables.iter().enumerate() {
            if place == FIRST_VARIABLES && left_out > 0 {
                writeln!(text, "{front} ... and {left_out} more ...")?;
            }
            note.push_to(text, front)?;
        }
        let left_out = self.behind_left_out;
        if left_out > 0 {
            writeln!(text, "{front} ... and {left_out} more reasons ...")?;
        }
        Ok(())
    }
}

/// A message without variables and notes on a byte range of a text, which counts from the first
/// byte of the whole file or stream. There is none where the range begins before the bytes that are
/// given.
///
/// # Errors
///
/// Out of memory.
pub fn message_at(
    alloc: Global,
    text: &Text<'_>,
    place: Span,
    said: String,
) -> Result<Option<Message>, AllocError> {
    let Some(spot) = text.spot_at(place.start) else {
        return Ok(None);
    };
    let marked = place.end.saturating_sub(place.start);
    let head = head_of(alloc, text.name, spot, marked, &said)?;
    Ok(Some(Message {
        line: spot.line,
        column: spot.column,
        said,
        remarks: Remarks::none(alloc),
        reason: None,
        variables: Vec::new(alloc),
        left_out: 0,
        behind_left_out: 0,
        fixed: Vec::new(alloc),
        notes: Vec::new(alloc),
        head,
    }))
}

/// The first lines of a message: where it is and what is said, and the line of the spot, from which
/// on so many bytes are marked.
fn head_of(
    alloc: Global,
    name: &str,
    spot: Spot<'_>,
    marked: usize,
    said: &str,
) -> Result<String, AllocError> {
    let Spot { line, column, .. } = spot;
    let mut head = format!(in alloc; "{name}:{line}:{column}: {said}\n")?;
    let Excerpt { text, front, marks } = Excerpt::new(alloc, spot, marked)?;
    push_line(&mut head, "", line, &text, front, marks)?;
    Ok(head)
}
