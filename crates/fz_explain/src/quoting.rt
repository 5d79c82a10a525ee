//! The line of a MiniZinc model that a path leads to.

use crate::excerpt::Excerpt;
use fz_places::{ModelPlace, spot_of};
use std::alloc::{AllocError, Global};

/// How the name of a file ends that is quoted.
const MODEL: &[u8] = b".mzn";

/// A position in a file, whose name is as it is opened. Lines and columns count from 1.
#[derive(Drop)]
pub struct Source {
    pub file: String,
    pub line: usize,
    pub column: usize,
}

/// A line of a text as it is shown, and how many columns come before the position that is marked.
#[derive(Drop)]
pub struct Quote {
    pub line: usize,
    pub text: String,
    pub front: usize,
}

/// The place of a path in its file, which may be told without the folders that the path begins
/// with; none where it is no MiniZinc model, or can't be opened by its name.
pub(crate) fn source_in(
    alloc: Global,
    path: &[u8],
    found: &ModelPlace<'_>,
) -> Result<Option<Source>, AllocError> {
    let (Some(line), Some(column)) = (number_of(found.line), number_of(found.column)) else {
        return Ok(None);
    };
    let folder = if found.file.contains(&b'/') {
        b""
    } else {
        folder_of(path)
    };
    let (Ok(folder), Ok(file)) = (str::from_utf8(folder), str::from_utf8(found.file)) else {
        return Ok(None);
    };
    if !found.file.ends_with(MODEL) {
        return Ok(None);
    }
    let file = format!(in alloc; "{folder}{file}")?;
    Ok(Some(Source { file, line, column }))
}

/// The folders of the first file of a path.
fn folder_of(path: &[u8]) -> &[u8] {
    let mut end = 0;
    for (place, byte) in path.iter().enumerate() {
        match *byte {
            b'|' => break,
            b'/' => end = place.saturating_add(1),
            _ => {}
        }
    }
    &path[..end.min(path.len())]
}

/// A number in decimal digits.
fn number_of(text: &[u8]) -> Option<usize> {
    let mut number: usize = 0;
    for digit in text {
        let digit = digit.checked_sub(b'0')?;
        number = number.checked_mul(10)?.checked_add(digit as usize)?;
    }
    Some(number)
}

impl Source {
    /// The line as it is shown, where the text has it.
    pub(crate) fn quote(&self, alloc: Global, text: &[u8]) -> Result<Option<Quote>, AllocError> {
        let Some(start) = start_of(text, self.line) else {
            return Ok(None);
        };
        let Some(rest) = text.get(start..) else {
            return Ok(None);
        };
        let column = self.column.saturating_sub(1).min(line_len(rest));
        let spot = spot_of(text, start.saturating_add(column));
        let Excerpt { text, front, .. } = Excerpt::new(alloc, spot, 1)?;
        let line = self.line;
        Ok(Some(Quote { line, text, front }))
    }
}

/// Where a line begins that has a byte.
fn start_of(text: &[u8], line: usize) -> Option<usize> {
    let mut start: usize = 0;
    for _ in 1..line {
        let rest = text.get(start..)?;
        let length = line_len(rest);
        if length == rest.len() {
            return None;
        }
        start = start.saturating_add(length).saturating_add(1);
    }
    if start < text.len() {
        Some(start)
    } else {
        None
    }
}

/// How many bytes come before the first LF.
fn line_len(text: &[u8]) -> usize {
    for (place, byte) in text.iter().enumerate() {
        if *byte == b'\n' {
            return place;
        }
    }
    text.len()
}
