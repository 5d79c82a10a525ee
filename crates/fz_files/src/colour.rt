//! Colours of messages on a terminal, as a compiler's have them.

use std::alloc::{AllocError, Global};
use std::env;
use std::io::IsTerminal;

/// The place and what is wrong there.
const BOLD: &str = "\x1b[1m";

/// The front of a line that is quoted, or of a note.
const BLUE: &str = "\x1b[1;34m";

/// What marks a part of the quoted line.
const RED: &str = "\x1b[1;31m";

const PLAIN: &str = "\x1b[0m";

/// What the environment has under a name: nothing where it hasn't the name.
fn variable(rt: &HostRuntime, name: &str) -> String {
    env::var(rt, name).unwrap_or(String::new(rt.alloc()))
}

/// Whether standard error is a terminal that shows colours, and `NO_COLOR` doesn't forbid them.
pub fn has_colours(rt: &HostRuntime) -> bool {
    if !rt.stderr().is_terminal() || !variable(rt, "NO_COLOR").is_empty() {
        return false;
    }
    let terminal = variable(rt, "TERM");
    !terminal.is_empty() && terminal.as_str() != "dumb"
}

/// Adds a part of a line in a colour.
fn push_part(text: &mut String, colour: &str, part: &str) -> Result<(), AllocError> {
    write!(text, "{colour}{part}{PLAIN}")
}

/// The front of a line of a message, up to the sign that ends it, and that sign.
fn front_of(line: &str) -> Option<(&str, &str)> {
    let trimmed = line.trim_start_matches(' ');
    let digits = trimmed.trim_start_matches(|c: char| c.is_ascii_digit());
    let sign = digits.trim_start_matches(' ');
    if trimmed.len() == line.len() || !sign.starts_with(['|', '=']) {
        return None;
    }
    line.split_at_checked(line.len().checked_sub(sign.len())?.checked_add(1)?)
}

/// Adds a line of a message in colours, with its end.
fn push_line(text: &mut String, line: &str) -> Result<(), AllocError> {
    match front_of(line) {
        None => push_part(text, BOLD, line)?,
        Some((front, behind)) => {
            push_part(text, BLUE, front)?;
            if behind.trim_ascii().trim_matches('^').is_empty() {
                push_part(text, RED, behind)?;
            } else {
                text.push_str(behind)?;
            }
        }
    }
    text.push_str("\n")
}

/// A message in colours, line by line.
///
/// # Errors
///
/// Out of memory.
pub fn coloured(alloc: Global, message: &str) -> Result<String, AllocError> {
    let mut text = String::new(alloc);
    for line in message.lines() {
        push_line(&mut text, line)?;
    }
    Ok(text)
}
