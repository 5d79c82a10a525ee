//! Where in a MiniZinc model a constraint is from, by the path to it that the compiler writes.

ghost use Rattle.std.specs.Prelude.{◌≡◌, ◌==◌, ◌≤◌, ◌∷◌, ◌++◌, IfOk, IfSome, IsNone, OnOk, Some, None, List, ℕ, length, map, option_map, take, drop};
ghost use Rattle.std.specs.List.{filter, list_any, prefix_len};
ghost use Rattle.fz_places.specs.Lines.{first_part, last_part};
ghost use Rattle.fz_places.specs.Paths.{AreSegmentsOf, BeginsWith, HasForm, HasNoPlace, IsNumber, IsPlaceIn, IsPlaceOf, IsSegment, folder_of, innermost, is_alike, is_digit, is_loop, is_own, is_own_loop, name_of, segment_text, short_name};
ghost use Rattle.fz_places.specs.Segments.{behind_bar, behind_segment, number};

use crate::lines::{part_len, part_start, parted};
use std::alloc::{AllocError, Global};

/// What separates the parts of a segment.
const BAR: u8 = b'|';

/// What ends a segment.
const SEMICOLON: u8 = b';';

/// What separates the folders of a file.
const SLASH: u8 = b'/';

/// A part of a path: a file, the first and the last position there of what is there, and what.
#[derive(Clone, Copy)]
pub(crate) struct Segment<'a> {
    pub file: &'a [u8],
    pub line: &'a [u8],
    pub column: &'a [u8],
    pub end_line: &'a [u8],
    pub end_column: &'a [u8],
    pub what: &'a [u8],
}

/// A place in a MiniZinc model, and the loop variables there with their values.
#[derive(Drop)]
pub struct ModelPlace<'a> {
    pub file: &'a [u8],
    pub line: &'a [u8],
    pub column: &'a [u8],
    /// Each as `i=1`.
    pub loops: Vec<&'a [u8]>,
}

fn is_digit(byte: u8) -> bool
    ensures { result ≡ is_digit byte }
{
    byte >= b'0' && byte <= b'9'
}

/// How many digits come first.
fn count_digits(text: &[u8]) -> usize
    ensures within { result ≤ length text.now }
    ensures digits { result ≡ prefix_len is_digit text.now }
{
    for (place, byte) in text.iter().enumerate() {
        if !is_digit(*byte) {
            return place;
        }
    }
    text.len()
}

/// What is behind a bar at the front.
fn behind_bar<'a>(text: &'a [u8]) -> Option<&'a [u8]>
    ensures bar { IfSome result (λ rest. text.now ≡ 124 ∷ rest.now) }
    ensures rest { option_map (λ r. r.now) result ≡ behind_bar text.now }
{
    match text {
        [first, rest @ ..] if *first == BAR => Some(rest),
        _ => None,
    }
}

/// The number behind a bar at the front, and what follows.
fn number<'a>(text: &'a [u8]) -> Option<(&'a [u8], &'a [u8])>
    ensures text { IfSome result (λ n. text.now ≡ 124 ∷ n.0.now ++ n.1.now) }
    ensures digits { IfSome result (λ n. IsNumber n.0.now) }
    ensures number { option_map {U = List ℕ × List ℕ} (λ n. (n.0.now, n.1.now)) result
        ≡ number text.now }
{
    let rest = behind_bar(text)?;
    let count = count_digits(rest);
    if count == 0 {
        return None;
    }
    Some(rest.split_at(count))
}

/// A segment of this file at the front of a text that follows, and what is behind it.
fn segment_of<'a>(file: &'a [u8], text: &'a [u8]) -> Option<(Segment<'a>, &'a [u8])>
    ensures text { IfSome result (λ s. segment_text s.0 ++ s.1.now ≡ file.now ++ text.now) }
    ensures form { IfSome result (λ s. IsSegment s.0) }
    ensures file { IfSome result (λ s. s.0.file.now ≡ file.now) }
    ensures rest { option_map (λ s. s.1.now) result ≡ behind_segment text.now }
{
    let (line, text) = number(text)?;
    let (column, text) = number(text)?;
    let (end_line, text) = number(text)?;
    let (end_column, text) = number(text)?;
    let (what, rest) = parted(behind_bar(text)?, SEMICOLON)?;
    let segment = Segment {
        file,
        line,
        column,
        end_line,
        end_column,
        what,
    };
    Some((segment, rest))
}

/// The segment at the front, whose file is as short as can be, and what is behind it.
fn first_segment<'a>(text: &'a [u8]) -> Option<(Segment<'a>, &'a [u8])>
    ensures segment { IfSome result (λ s. BeginsWith text.now s.0 s.1.now) }
    ensures none { IsNone result → HasForm text.now → ⊥ }
{
    for length in 0..text.len() {
        let (file, rest) = text.split_at(length);
        if let Some(found) = segment_of(file, rest) {
            return Some(found);
        }
    }
    None
}

/// The segments of a path.
fn segments_of<'a>(alloc: Global, path: &'a [u8]) -> Result<Option<Vec<Segment<'a>>>, AllocError>
    ensures segments { IfOk result (λ o. IfSome o (λ v. AreSegmentsOf path.now v.items)) }
    ensures none { IfOk result (λ o. IsNone o → HasForm path.now → ⊥) }
{
    // What ends a segment is looked for at each place that may be behind its file. Where the path
    // ends with one, the first look finds it.
    if !path.ends_with(b";") {
        return Ok(None);
    }
    let mut segments = Vec::new(alloc);
    let mut rest = path;
    // A segment takes a byte at least.
    for _ in 0..path.len() {
        let Some((segment, behind)) = first_segment(rest) else {
            return Ok(None);
        };
        segments.push(segment)?;
        if behind.is_empty() {
            return Ok(Some(segments));
        }
        rest = behind;
    }
    Ok(None)
}

/// A file without its folders.
fn name_of<'a>(file: &'a [u8]) -> &'a [u8]
    ensures { result.now ≡ name_of file.now }
{
    &file[part_start(file, SLASH)..]
}

/// The folders of a file.
fn folder_of<'a>(file: &'a [u8]) -> &'a [u8]
    ensures { result.now ≡ folder_of file.now }
{
    &file[..file.len().saturating_sub(name_of(file).len())]
}

/// Whether a segment is of a loop variable: it has a sign of equality before any bar.
fn is_loop(segment: &Segment<'_>) -> bool
    ensures { result ≡ is_loop segment.now }
{
    let what = segment.what;
    has_equality(&what[..part_len(what, BAR)])
}

fn has_equality(text: &[u8]) -> bool
    ensures { result ≡ list_any (λ b. b == 61) text.now }
{
    text.iter().any(|byte| *byte == b'=')
}

/// Whether a segment is in the first file or in one beside it. One without a file is in none.
fn is_own(first: &[u8], segment: &Segment<'_>) -> bool
    ensures { result ≡ is_own first.now segment.now }
{
    segment.file.len() != 0 && folder_of(segment.file) == folder_of(first)
}

/// Whether another file of these has the name of this one.
fn has_alike(segments: &[Segment<'_>], file: &[u8]) -> bool
    ensures { result ≡ list_any (is_alike file.now) segments.now }
{
    segments.iter().any(|segment| is_alike(segment, file))
}

/// Whether a segment is in another file with the name of this one.
fn is_alike(segment: &Segment<'_>, file: &[u8]) -> bool
    ensures { result ≡ is_alike file.now segment.now }
{
    name_of(segment.file) == name_of(file) && segment.file != file
}

/// The innermost segment in the model's own files that is no loop variable.
fn innermost<'a>(segments: &[Segment<'a>], first: &[u8]) -> Option<Segment<'a>>
    ensures { result ≡ innermost first.now None segments.now }
{
    let mut place = None;
    for segment in segments {
        if is_own(first, segment) && !is_loop(segment) {
            place = Some(*segment);
        }
    }
    place
}

/// The loop variables in the model's own files.
fn loops_in<'a>(
    alloc: Global,
    segments: &[Segment<'a>],
    first: &[u8],
) -> Result<Vec<&'a [u8]>, AllocError>
    ensures { IfOk result (λ v. map (λ w. w.now) v.items
        ≡ map (λ s. s.what.now) (filter (is_own_loop first.now) segments.now)) }
{
    let mut loops = Vec::new(alloc);
    for segment in segments {
        if is_own(first, segment) && is_loop(segment) {
            loops.push(segment.what)?;
        }
    }
    Ok(loops)
}

/// The place in the model that segments lead to.
fn place_in<'a>(
    alloc: Global,
    segments: &[Segment<'a>],
    first: &[u8],
) -> Result<Option<ModelPlace<'a>>, AllocError>
    ensures found { IfOk result (λ o. IfSome o (IsPlaceIn segments.now first.now)) }
    ensures none { IfOk result (λ o. IsNone o → innermost first.now None segments.now ≡ None) }
{
    let Some(segment) = innermost(segments, first) else {
        return Ok(None);
    };
    let Segment {
        file,
        line,
        column,
        ..
    } = segment;
    let file = if has_alike(segments, file) {
        file
    } else {
        name_of(file)
    };
    let loops = loops_in(alloc, segments, first)?;
    Ok(Some(ModelPlace {
        file,
        line,
        column,
        loops,
    }))
}

/// The place in the model that a path leads to: the innermost one in the first file and those
/// beside it; none where the path isn't of the form that the compiler writes.
///
/// # Errors
///
/// Out of memory.
pub fn model_place<'a>(alloc: Global, path: &'a [u8]) -> Result<Option<ModelPlace<'a>>, AllocError>
    ensures found { IfOk result (λ o. IfSome o (IsPlaceOf path.now)) }
    ensures none { IfOk result (λ o. IsNone o → HasNoPlace path.now) }
{
    let Some(segments) = segments_of(alloc, path)? else {
        return Ok(None);
    };
    match segments.first() {
        Some(first) => place_in(alloc, &segments, first.file),
        None => Ok(None),
    }
}
