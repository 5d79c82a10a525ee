//! The line of a text that a message shows, cut to the columns of a message.

use fz_places::Spot;
use std::alloc::{AllocError, Global};
use unicode_width::UnicodeWidthChar;

/// The most columns of a line that is shown.
const MOST_COLUMNS: usize = 120;

/// What is shown instead of the part of a line that is left out.
const CUT: [char; 3] = ['.', '.', '.'];

/// The character as it is shown: a control character, a tab too, is a blank.
fn visible(letter: char) -> char {
    if letter.is_control() { ' ' } else { letter }
}

/// The text of bytes as it is shown. What isn't UTF-8 is shown by a replacement character.
///
/// # Errors
///
/// Out of memory.
pub(crate) fn shown_text(alloc: Global, bytes: &[u8]) -> Result<String, AllocError> {
    let text = String::from_utf8_lossy(alloc, bytes)?;
    text.chars().map(visible).collect(alloc)
}

/// Adds the text of bytes as it is shown, between two others.
pub(crate) fn push_shown(
    text: &mut String,
    front: &str,
    bytes: &[u8],
    end: &str,
) -> Result<(), AllocError> {
    text.push_str(front)?;
    let shown = shown_text(*text.allocator(), bytes)?;
    text.push_str(&shown)?;
    text.push_str(end)
}

/// The same as characters.
fn letters_of(alloc: Global, bytes: &[u8]) -> Result<Vec<char>, AllocError> {
    let text = String::from_utf8_lossy(alloc, bytes)?;
    text.chars().map(visible).collect(alloc)
}

/// How many columns a character takes.
fn width(letter: char) -> usize {
    letter.width().unwrap_or(0)
}

/// How many columns characters take.
fn columns(letters: &[char]) -> usize {
    let mut count: usize = 0;
    for letter in letters {
        count = count.saturating_add(width(*letter));
    }
    count
}

/// How many characters, from the first on, fit in so many columns.
fn fitting(letters: &[char], room: usize) -> usize {
    let mut left = room;
    for (place, letter) in letters.iter().enumerate() {
        match left.checked_sub(width(*letter)) {
            Some(rest) => left = rest,
            None => return place,
        }
    }
    letters.len()
}

/// Cuts characters that don't fit in so many columns: what fits before three dots stays.
fn cut(letters: &mut Vec<char>, room: usize) -> Result<(), AllocError> {
    if columns(letters) <= room {
        return Ok(());
    }
    letters.truncate(fitting(letters, room.saturating_sub(CUT.len())));
    letters.extend_from_slice(&CUT)
}

/// The text of bytes as it is shown, cut to the columns of a message.
///
/// # Errors
///
/// Out of memory.
pub(crate) fn cut_text(alloc: Global, bytes: &[u8]) -> Result<String, AllocError> {
    let mut letters = letters_of(alloc, bytes)?;
    cut(&mut letters, MOST_COLUMNS)?;
    letters.iter().copied().collect(alloc)
}

/// What a message shows of a line: its text, how many columns come before the position that it is
/// about, and how many are marked from there on.
#[derive(Drop)]
pub(crate) struct Excerpt {
    pub text: String,
    pub front: usize,
    pub marks: usize,
}

impl Excerpt {
    /// What is shown of the line of a spot, from which on so many bytes are marked: at least one
    /// column, and none that isn't shown. A long line is cut so that the spot stays in view.
    ///
    /// # Errors
    ///
    /// Out of memory.
    pub(crate) fn new(alloc: Global, spot: Spot<'_>, marked: usize) -> Result<Excerpt, AllocError> {
        let line = spot.behind;
        let marked = columns(&letters_of(alloc, &line[..marked.min(line.len())])?);
        let behind = line.strip_suffix(b"\r").unwrap_or(line);
        // The front may take half of all columns, or as many as those behind it leave.
        let left = MOST_COLUMNS.saturating_sub(columns(&letters_of(alloc, behind)?));
        let mut letters = front_of(alloc, spot.front, left.max(MOST_COLUMNS / 2))?;
        let front = columns(&letters);
        let room = MOST_COLUMNS.saturating_sub(front);
        let shown = add_cut(alloc, &mut letters, behind, room)?;
        Ok(Excerpt {
            text: letters.iter().copied().collect(alloc)?,
            front,
            marks: marked.min(shown).max(1),
        })
    }
}

/// The characters of the front of a line that are shown in so many columns.
fn front_of(alloc: Global, bytes: &[u8], room: usize) -> Result<Vec<char>, AllocError> {
    let mut letters = letters_of(alloc, bytes)?;
    letters.reverse();
    cut(&mut letters, room)?;
    letters.reverse();
    Ok(letters)
}

/// Adds the characters of bytes that are shown in so many columns, and gives how many they take.
fn add_cut(
    alloc: Global,
    letters: &mut Vec<char>,
    bytes: &[u8],
    room: usize,
) -> Result<usize, AllocError> {
    let mut added = letters_of(alloc, bytes)?;
    cut(&mut added, room)?;
    letters.extend_from_slice(&added)?;
    Ok(columns(&added))
}

/// How many digits a number has.
pub(crate) fn digits_of(number: usize) -> usize {
    number.checked_ilog10().unwrap_or(0).saturating_add(1) as usize
}

/// Adds a line that is shown, behind its number, and marks below it behind so many columns.
pub(crate) fn push_line(
    text: &mut String,
    front: &str,
    line: usize,
    shown: &str,
    before: usize,
    marks: usize,
) -> Result<(), AllocError> {
    let digits = digits_of(line);
    writeln!(text, "{front}   {line} | {shown}")?;
    writeln!(
        text,
        "{front}   {:digits$} | {:before$}{:^>marks$}",
        "", "", ""
    )
}
