//! What a splitter holds: the text of the open block, and the current line.

ghost use Rattle.std.specs.Prelude.{◌≡◌, ◌≢◌, ℕ, ◌+◌, ◌≤◌, ◌<◌, ◌++◌, ◌∷◌, [], List, length, take, Err, Ok, Some, None, IfOk, IfErr, IsSome, OnErr};
ghost use Rattle.fz_syntax.specs.Limits.{Limits};
ghost use Rattle.fz_syntax.specs.Places.{IsSpanWithin};
ghost use Rattle.fz_stream.specs.Broken.{BreaksAfter, CannotGoOn, CannotEnd};
ghost use Rattle.fz_stream.specs.Faults.{IsCuttingFault, IsFaultWithin};
ghost use Rattle.fz_stream.specs.Inside.{waiting_of};
ghost use Rattle.fz_stream.specs.Keeping.{HasLine, Stands, EndsLine, AfterBytes, BreaksBlock, held_while, line_while};
ghost use Rattle.fz_stream.specs.Parts.{Line, lines_of, Frame};
ghost use Rattle.fz_stream.specs.Splitting.{HasRoomFor, PassesLimit, EndsWith, most_taken};
ghost use Rattle.fz_stream.specs.Step.{begun_of};

use crate::error::StreamError;
use crate::line::{ClaimKind, first_line, line_kind};
use crate::step::{Step, after_line};
use fz_syntax::Span;

/// The most bytes that are taken from the whole stream.
const MOST_TAKEN: usize = 1_099_511_627_776;

/// The kind of frame that a line ended.
#[derive(Clone, Copy)]
pub enum Ended {
    BlockEnded,
    ClaimEnded(ClaimKind),
}

/// The text of the open block, and the current line.
#[derive(Drop)]
pub struct Held {
    pub buffer: Vec<u8>,
    /// Where the current line begins in the buffer.
    pub line: usize,
    /// How many bytes of the stream come before the buffer.
    pub before: usize,
}

/// The offset in the stream where the open block begins, if one is open: its whole lines have the
/// length `line`, and the buffer begins with them.
fn begun_at(line: usize, before: usize) -> Option<usize>
    ensures { result ≡ begun_of line before }
{
    if line == 0 { None } else { Some(before) }
}

/// Handles the end of the current line: drops the line, adds it to the open block, or ends a frame.
/// The error is the byte range of a block that is left unfinished.
fn end_line(held: &mut Held) -> Result<Option<Ended>, Span>
    requires line { held.old.line ≤ length held.old.buffer.items }
    requires taken { held.old.before + length held.old.buffer.items ≤ most_taken }
    ensures line_after { held.new.line ≤ length held.new.buffer.items }
    ensures taken { held.new.before + length held.new.buffer.items
        ≡ held.old.before + length held.old.buffer.items }
    ensures shorter { length held.new.buffer.items ≤ length held.old.buffer.items }
    ensures ends { IfOk result (λ r. EndsLine r held.new held.old) }
    ensures breaks { IfErr result (λ span. (limits : Limits) (lines : List Line)
        (frames : List Frame) (line : Line) → HasLine held.old lines frames line
        → BreaksBlock limits lines frames line (StreamError.Unfinished span)) }
    // A block that is open, or broken, is what is held.
    ensures begins { IfErr result (λ span. span.start ≡ held.old.before) }
    ensures kept { OnErr result (held.new.buffer.items ≡ held.old.buffer.items) }
    ensures open { result ≡ Ok None → 0 < held.new.line
        → (held.new.buffer.items ≡ held.old.buffer.items) × (held.new.before ≡ held.old.before) }
    ensures place { IfErr result
        (IsSpanWithin (held.old.before + length held.old.buffer.items)) }
{
    let begun = begun_at(held.line, held.before);
    let at = held.before + held.line;
    let kind = line_kind(&held.buffer[held.line..]);
    match after_line(begun, at, kind) {
        Step::GoesOn(None) => {
            held.before += held.buffer.len();
            held.buffer.clear();
            held.line = 0;
            Ok(None)
        }
        Step::GoesOn(Some(_)) => {
            held.line = held.buffer.len();
            Ok(None)
        }
        Step::EndsBlock(_) => Ok(Some(Ended::BlockEnded)),
        Step::Claims(kind) => Ok(Some(Ended::ClaimEnded(kind))),
        Step::Breaks(start) => Err(Span { start, end: at }),
    }
}

/// Drops the bytes of the frame that waited, if one did.
pub fn drop_frame(held: &mut Held, ended: Option<Ended>)
    requires line { held.old.line ≤ length held.old.buffer.items }
    requires taken { held.old.before + length held.old.buffer.items ≤ most_taken }
    ensures kept { held.new.buffer.items ≡ held_while ended held.old.buffer.items }
    ensures line { held.new.line ≡ line_while ended held.old.line }
    ensures shorter { length held.new.buffer.items ≤ length held.old.buffer.items }
    ensures taken { held.new.before + length held.new.buffer.items
        ≡ held.old.before + length held.old.buffer.items }
    ensures line_after { held.new.line ≤ length held.new.buffer.items }
{
    if ended.is_some() {
        held.before += held.buffer.len();
        held.buffer.clear();
        held.line = 0;
    }
}

/// Takes bytes up to the end of a frame, or all of them. At most so many are held at once.
pub fn take_bytes(
    held: &mut Held,
    piece: &[u8],
    most_held: usize,
) -> Result<(usize, Option<Ended>), StreamError>
    requires line { held.old.line ≤ length held.old.buffer.items }
    requires most { length held.old.buffer.items ≤ most_held }
    requires taken { held.old.before + length held.old.buffer.items ≤ most_taken }
    ensures line_after { held.new.line ≤ length held.new.buffer.items }
    ensures most_after { length held.new.buffer.items ≤ most_held }
    ensures taken_after { held.new.before + length held.new.buffer.items ≤ most_taken }
    ensures within { IfOk result (λ r. r.0 ≤ length piece.now) }
    ensures some { IfOk result (λ r. IsSome r.1 → 0 < r.0) }
    ensures all { IfOk result (λ r. r.1 ≡ None → r.0 ≡ length piece.now) }
    ensures count { IfOk result (λ r. held.new.before + length held.new.buffer.items
        ≡ held.old.before + length held.old.buffer.items + r.0) }
    ensures ends { IfOk result (λ r. (bytes : List ℕ) (frames : List Frame)
        → Stands held.old bytes frames
        → AfterBytes r.1 held.new (bytes ++ take r.0 piece.now) frames) }
    ensures room { IfOk result (λ r. (bytes : List ℕ) (frames : List Frame)
        → Stands held.old bytes frames → HasRoomFor most_held bytes piece.now frames r.0) }
    ensures broken { IfErr result (λ e. e ≢ StreamError.Memory → e ≢ StreamError.TooLong →
        (limits : Limits) (bytes : List ℕ) (frames : List Frame) → Stands held.old bytes frames
        → BreaksAfter limits CannotGoOn (bytes ++ piece.now) frames e) }
    ensures too_long { result ≡ Err StreamError.TooLong → (bytes : List ℕ) (frames : List Frame)
        → Stands held.old bytes frames → PassesLimit most_held bytes piece.now frames }
    ensures fault { IfErr result IsCuttingFault }
    ensures place { IfErr result (IsFaultWithin
        (held.old.before + length held.old.buffer.items + length piece.now)) }
{
    let mut at = 0;
    while at < piece.len() {
        let part = first_line(&piece[at..]);
        let room = most_held - held.buffer.len();
        let left = MOST_TAKEN - (held.before + held.buffer.len());
        if part.len() > room || part.len() > left {
            return Err(StreamError::TooLong);
        }
        held.buffer.extend_from_slice(part)?;
        at += part.len();
        let is_whole = part[part.len() - 1] == b'\n';
        if is_whole {
            match end_line(held) {
                Ok(None) => {}
                Ok(Some(ended)) => return Ok((at, Some(ended))),
                Err(span) => return Err(StreamError::Unfinished(span)),
            }
        }
    }
    Ok((at, None))
}

/// Ends a stream of which all lines have ended. The error is the byte range of an open block.
fn end_open(held: &Held) -> Result<Option<Ended>, Span>
    requires { held.now.before + length held.now.buffer.items ≤ most_taken }
    ensures ends { IfOk result (λ r. (bytes : List ℕ) (frames : List Frame)
        (offset : ℕ) (text : List ℕ) → HasLine held.now (lines_of bytes) frames []
        → EndsWith (waiting_of r offset text) bytes frames) }
    ensures broken { IfErr result (λ span. (limits : Limits) (bytes : List ℕ)
        (frames : List Frame) → HasLine held.now (lines_of bytes) frames []
        → BreaksAfter limits CannotEnd bytes frames (StreamError.Unfinished span)) }
    ensures begins { IfErr result
        (λ span. (0 < held.now.line) × (span.start ≡ held.now.before)) }
    ensures place { IfErr result (IsSpanWithin (held.now.before + length held.now.buffer.items)) }
{
    if held.line > 0 {
        let start = held.before;
        let end = start + held.buffer.len();
        return Err(Span { start, end });
    }
    Ok(None)
}

/// Ends the stream: with a last frame, with none, or with a block that is left unfinished, of which
/// the error is the byte range. The current line, where it isn't empty, is the last one.
pub fn end_stream(held: &mut Held) -> Result<Option<Ended>, Span>
    requires line { held.old.line ≤ length held.old.buffer.items }
    requires taken { held.old.before + length held.old.buffer.items ≤ most_taken }
    ensures line_after { held.new.line ≤ length held.new.buffer.items }
    ensures taken { held.new.before + length held.new.buffer.items
        ≡ held.old.before + length held.old.buffer.items }
    ensures shorter { length held.new.buffer.items ≤ length held.old.buffer.items }
    ensures ends { IfOk result (λ r. (bytes : List ℕ) (frames : List Frame)
        → Stands held.old bytes frames → EndsWith (waiting_of r held.new.before
        (take held.new.line held.new.buffer.items)) bytes frames) }
    ensures broken { IfErr result (λ span. (limits : Limits) (bytes : List ℕ)
        (frames : List Frame) → Stands held.old bytes frames
        → BreaksAfter limits CannotEnd bytes frames (StreamError.Unfinished span)) }
    ensures begins { IfErr result (λ span. span.start ≡ held.old.before) }
    ensures kept { OnErr result (held.new.buffer.items ≡ held.old.buffer.items) }
    ensures place { IfErr result (IsSpanWithin (held.old.before + length held.old.buffer.items)) }
{
    if held.line == held.buffer.len() {
        return end_open(held);
    }
    match end_line(held) {
        Ok(None) => end_open(held),
        Ok(Some(ended)) => Ok(Some(ended)),
        Err(span) => Err(span),
    }
}
