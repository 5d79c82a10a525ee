//! What the MiniZinc compiler wrote at a point on where it is from: the names of a constraint and
//! of its expression, and the path to it in the model.

use crate::excerpt::{cut_text, push_shown, shown_text};
use crate::place::point_notes;
use crate::quoting::{Quote, Source, source_in};
use crate::verdict::Reading;
use fz_places::{ModelPlace, NameLine, NameTable, model_place, text_of};
use fz_store::Point;
use fz_tree::Note;
use std::alloc::{AllocError, Global};

/// What the compiler wrote at a point.
#[derive(Drop)]
pub struct Remarks {
    /// The names of the constraint and of its expression, in quotes as they are written.
    pub names: Vec<String>,
    /// Where it is in the model, as `plan.mzn:4:38`, or a path of another form as it is.
    pub place: Option<String>,
    /// The loop variables there, each as `i = 1`.
    pub loops: Vec<String>,
    /// Where that place may be read.
    pub source: Option<Source>,
    /// What was read there.
    pub quote: Option<Quote>,
}

impl Remarks {
    pub(crate) fn none(alloc: Global) -> Remarks {
        Remarks {
            names: Vec::new(alloc),
            place: None,
            loops: Vec::new(alloc),
            source: None,
            quote: None,
        }
    }

    /// Adds what the compiler wrote at a point.
    pub(crate) fn add_point(
        &mut self,
        reading: &Reading,
        point: &Point<'_>,
    ) -> Result<(), AllocError> {
        let alloc = reading.alloc;
        let Some(notes) = point_notes(reading.ast, point) else {
            return Ok(());
        };
        self.add_name(alloc, notes, b"mzn_constraint_name")?;
        self.add_name(alloc, notes, b"mzn_expression_name")?;
        match line_of(alloc, reading.names, point)? {
            Some(line) if !line.path.is_empty() => self.add_path(alloc, line.path),
            _ => match text_of(notes, b"mzn_path") {
                Some(path) => self.add_path(alloc, unquoted(path)),
                None => Ok(()),
            },
        }
    }

    fn add_name(
        &mut self,
        alloc: Global,
        notes: &[Note<'_>],
        key: &[u8],
    ) -> Result<(), AllocError> {
        if let Some(name) = text_of(notes, key) {
            self.names.push(shown_text(alloc, name)?)?;
        }
        Ok(())
    }

    fn add_path(&mut self, alloc: Global, path: &[u8]) -> Result<(), AllocError> {
        match model_place(alloc, path)? {
            Some(found) => self.add_place(alloc, path, &found),
            None => {
                self.place = Some(cut_text(alloc, path)?);
                Ok(())
            }
        }
    }

    fn add_place(
        &mut self,
        alloc: Global,
        path: &[u8],
        found: &ModelPlace<'_>,
    ) -> Result<(), AllocError> {
        self.source = source_in(alloc, path, found)?;
        let mut place = String::new(alloc);
        push_shown(&mut place, "", found.file, ":")?;
        push_shown(&mut place, "", found.line, ":")?;
        push_shown(&mut place, "", found.column, "")?;
        self.place = Some(place);
        for value in &found.loops {
            self.loops.push(loop_text(alloc, value)?)?;
        }
        Ok(())
    }

    /// Quotes the line of the place, where this is the text of its file.
    ///
    /// # Errors
    ///
    /// Out of memory.
    pub fn read(&mut self, alloc: Global, text: &[u8]) -> Result<(), AllocError> {
        let quote = match &self.source {
            Some(source) => source.quote(alloc, text)?,
            None => None,
        };
        self.quote = quote;
        Ok(())
    }

    /// Adds the lines of a message, with these at the front: each name on one, the place and the
    /// loop variables behind the last.
    pub(crate) fn push_to(
        &self,
        text: &mut String,
        front: &str,
        blanks: &str,
    ) -> Result<(), AllocError> {
        let Some(place) = &self.place else {
            return push_lines(text, front, blanks, &self.names);
        };
        match self.names.split_last() {
            Some((last, names)) => {
                push_lines(text, front, blanks, names)?;
                write!(text, "{front}{blanks}{last}, {place}")?;
            }
            None => write!(text, "{front}{blanks}{place}")?,
        }
        for (number, value) in self.loops.iter().enumerate() {
            let between = if number > 0 { ", " } else { ", with " };
            write!(text, "{between}{value}")?;
        }
        text.push_str("\n")
    }
}

fn push_lines(
    text: &mut String,
    front: &str,
    blanks: &str,
    lines: &[String],
) -> Result<(), AllocError> {
    for told in lines {
        writeln!(text, "{front}{blanks}{told}")?;
    }
    Ok(())
}

/// A loop variable with its value, with blanks around the sign of equality.
fn loop_text(alloc: Global, value: &[u8]) -> Result<String, AllocError> {
    let text = shown_text(alloc, value)?;
    match text.split_once("=") {
        Some((name, value)) => format!(in alloc; "{name} = {value}"),
        None => Ok(text),
    }
}

/// The line of a point in the table of names, where a constraint has its number, from 0.
fn line_of<'n>(
    alloc: Global,
    names: &NameTable<'n>,
    point: &Point<'_>,
) -> Result<Option<NameLine<'n>>, AllocError> {
    match point {
        Point::Domain(name) | Point::Definition(name) => Ok(names.find(name)),
        Point::Constraint(number, _) => {
            let index = number.saturating_sub(1);
            let number = format!(in alloc; "{index}")?;
            Ok(names.find(number.as_bytes()))
        }
    }
}

/// A text without the quotes around it.
fn unquoted(text: &[u8]) -> &[u8] {
    let text = text.strip_prefix(b"\"").unwrap_or(text);
    text.strip_suffix(b"\"").unwrap_or(text)
}
