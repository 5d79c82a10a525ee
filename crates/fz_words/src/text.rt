//! A text that was refused.

use crate::expected::expected_at;
use crate::looks::look_at;
use fz_tree::SyntaxError;
use std::alloc::{AllocError, Global};

/// What a file was given as.
#[derive(Clone, Copy, PartialEq, Eq)]
pub enum Given {
    Model,
    Stream,
}

/// A model, or the last of a stream.
#[derive(Clone, Copy)]
pub struct Refused<'a> {
    pub given: Given,
    /// The name of the file.
    pub name: &'a str,
    pub bytes: &'a [u8],
    /// The byte offset of the first fault.
    pub at: usize,
}

impl<'a> Refused<'a> {
    /// The text in which the fault is, a model or a block, and the offset of the fault there.
    fn part(self) -> (&'a [u8], usize) {
        let (start, end) = match self.given {
            Given::Model => (0, self.bytes.len()),
            Given::Stream => block_around(self.bytes, self.at),
        };
        let part = self.bytes.get(start..end).unwrap_or(b"");
        (part, self.at.saturating_sub(start))
    }

    /// What the file is, where it isn't what it was given as, and that can be seen.
    pub fn look(self) -> Option<&'static str> {
        let (part, at) = self.part();
        look_at(self.given, self.name, part, at)
    }

    /// What is wrong at the fault, which is this one: of one of grammar what was expected there.
    ///
    /// # Errors
    ///
    /// Out of memory.
    pub fn wrong(self, alloc: Global, fault: &SyntaxError) -> Result<String, AllocError> {
        let (part, at) = self.part();
        if let SyntaxError::Syntax(_) = fault
            && let Some(expected) = expected_at(alloc, self.given, part, at)?
        {
            return Ok(expected);
        }
        String::from_str(alloc, meaning(fault))
    }
}

/// What a fault means.
pub fn meaning(fault: &SyntaxError) -> &'static str {
    match fault {
        SyntaxError::TooLong => "the text is too long",
        SyntaxError::BadByte(_) => "no word, number or sign begins so",
        SyntaxError::TooLarge(_) => "this number doesn't fit 64 bits",
        SyntaxError::Float(_) => "floats aren't read",
        SyntaxError::Syntax(_) => "the grammar has something else here",
        SyntaxError::TooDeep(_) => "annotations are nested too deep",
        SyntaxError::TooMany(_) => "there are too many of these",
        SyntaxError::Memory => "no memory",
    }
}

/// Where the text of the block begins and ends in which this byte offset of a stream is: behind the
/// line that ends the block before, and before the line that ends this one.
fn block_around(stream: &[u8], at: usize) -> (usize, usize) {
    let mut start: usize = 0;
    let mut place: usize = 0;
    for line in stream.split_inclusive(|byte| *byte == b'\n') {
        let end = place.saturating_add(line.len());
        if ends_block(line) {
            if place >= at {
                return (start, place);
            }
            start = end;
        }
        place = end;
    }
    (start, place)
}

/// Whether a line is a marker, or a claim, behind which a block may begin.
fn ends_block(line: &[u8]) -> bool {
    let line = line.trim_ascii();
    line == b"----------".as_slice() || line.starts_with(b"=====")
}
