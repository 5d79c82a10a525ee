//! Reads a whole stream.

ghost use Rattle.std.specs.Prelude.{◌≡◌, ◌≢◌, List, map, length, vec_len, ◌<◌, ◌↔◌, IfOk, IfErr, Err};
ghost use Rattle.std.specs.List.{AllByRecursion};
ghost use Rattle.fz_syntax.specs.Places.{most_bytes};
ghost use Rattle.fz_stream.specs.Broken.{StopsAfter};
ghost use Rattle.fz_stream.specs.Faults.{IsStreamFault, IsFaultWithin};
ghost use Rattle.fz_stream.specs.Found.{block_of, HasPlaces, EndsWithin, IsReadAs, AreInOrder, StandsBeforeMarker, IsStreamText};
ghost use Rattle.fz_stream.specs.Parts.{StreamPart};

use crate::block::{Block, read_block};
use crate::error::StreamError;
use crate::line::{ClaimKind, first_line, line_kind};
use crate::step::{Step, after_line};
use fz_syntax::{Limits, Span};
use std::alloc::Global;

/// A claim that a solver printed.
#[derive(Clone, Copy, Debug, PartialEq, Eq)]
pub struct Claim {
    /// How many blocks come before it.
    pub after: usize,
    pub kind: ClaimKind,
}

/// What a solver printed: its solution blocks and its claims, each in the stream's order.
#[derive(Drop)]
pub struct Stream<'a> {
    pub blocks: Vec<Block<'a>>,
    pub claims: Vec<Claim>,
}

/// The blocks and claims of a stream of at most 16,777,216 bytes. The error is the first fault in
/// the order of the stream. A fault of a block's text counts at the line that closes the block, and
/// a name printed twice after that.
pub fn blocks<'a>(alloc: Global, stream: &'a [u8]) -> Result<Stream<'a>, StreamError>
    // The blocks and claims of the stream, and no others.
    ensures read { IfOk result (λ found. IsReadAs stream.now
        (map block_of found.blocks.items) found.claims.items) }
    // Each block's text is the stream's, up to a marker line.
    ensures before_markers { IfOk result (λ found. AllByRecursion (StandsBeforeMarker stream.now)
        (map block_of found.blocks.items)) }
    // Byte ranges in a block's items count from its text's first byte.
    ensures places { IfOk result (λ found. AllByRecursion HasPlaces found.blocks.items) }
    ensures within { IfOk result (λ found. AllByRecursion
        (EndsWithin (length stream.now)) found.blocks.items) }
    ensures claims_in_order { IfOk result
        (λ found. AreInOrder 0 (vec_len found.blocks) found.claims.items) }

    ensures too_long { (result ≡ Err StreamError.TooLong) ↔ (most_bytes < length stream.now) }
    // All else is refused only where the bytes are a text of no parts.
    ensures refused { IfErr result (λ e. e ≢ StreamError.Memory → e ≢ StreamError.TooLong
        → (parts : List StreamPart) → IsStreamText stream.now parts → ⊥) }
    // The fault is that of the first broken block: it says what is wrong with its text, or with
    // what follows it.
    ensures stops { IfErr result (λ e. e ≢ StreamError.Memory → e ≢ StreamError.TooLong
        → (parts : List StreamPart) × StopsAfter stream.now parts e) }
    ensures fault { IfErr result IsStreamFault }
    ensures place { IfErr result (IsFaultWithin (length stream.now)) }
{
    if stream.len() > Limits::STANDARD.bytes() {
        return Err(StreamError::TooLong);
    }
    let mut blocks = Vec::new(alloc);
    let mut claims = Vec::new(alloc);
    let mut begun = None;
    let mut at = 0;
    while at < stream.len() {
        let line = first_line(&stream[at..]);
        match after_line(begun, at, line_kind(line)) {
            Step::GoesOn(next) => begun = next,
            Step::EndsBlock(start) => {
                let block = read_block(alloc, start, &stream[start..at], Limits::STANDARD)?;
                blocks.push(block)?;
                begun = None;
            }
            Step::Claims(kind) => {
                let after = blocks.len();
                claims.push(Claim { after, kind })?;
            }
            Step::Breaks(start) => return Err(StreamError::Unfinished(Span { start, end: at })),
        }
        at += line.len();
    }
    match begun {
        Some(start) => Err(StreamError::Unfinished(Span {
            start,
            end: stream.len(),
        })),
        None => Ok(Stream { blocks, claims }),
    }
}
