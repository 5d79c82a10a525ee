//! Calls that read the blocks and claims of a stream, whole and by a splitter.

ghost use Rattle.std.specs.Prelude.{◌≢◌, ◌≤◌, length, IfSome};
ghost use Rattle.fz_stream.specs.declared.splitter.Stage.TheVariants.{Finished};

use crate::outside::{file, number, tell, tell_error};
use crate::reading::tell_block;
use fz_stream::{Part, Splitter, Stream, StreamError, blocks};

/// Makes a call on a stream. A splitter is fed the stream in pieces of as many bytes as the second
/// operand says.
pub fn make_call(rt: &HostRuntime, call: &str, operands: &[String]) -> Option<()> {
    let stream = file(rt, operands, 0)?;
    if call == "split" {
        split(rt, &stream, number(operands, 1)?);
        return Some(());
    }
    for _ in 0..2 {
        if !lacks_memory(rt, &stream) {
            break;
        }
    }
    Some(())
}

/// Reads a stream whole, and prints its parts or the refusal. Whether memory ran out.
fn lacks_memory(rt: &HostRuntime, stream: &[u8]) -> bool {
    match blocks(rt.alloc(), stream) {
        Ok(found) => {
            tell_stream(rt, &found);
            false
        }
        Err(error) => {
            tell_error(rt, &error);
            matches!(error, StreamError::Memory)
        }
    }
}

fn tell_stream(rt: &HostRuntime, stream: &Stream<'_>) {
    for block in &stream.blocks {
        tell_block(rt, block);
    }
    tell(rt, &stream.claims);
}

fn tell_part(rt: &HostRuntime, part: &Option<Part<'_>>) {
    match part {
        Some(Part::Block(block)) => tell_block(rt, block),
        Some(Part::Claim(kind)) => tell(rt, kind),
        None => tell(rt, &()),
    }
}

/// Prints the part that waits, or its fault. Whether memory ran out.
fn take_lacks_memory(rt: &HostRuntime, splitter: &Splitter) -> bool {
    match splitter.take() {
        Ok(part) => {
            tell_part(rt, &part);
            false
        }
        Err(error) => {
            tell_error(rt, &error);
            matches!(error, StreamError::Memory)
        }
    }
}

fn tell_taken(rt: &HostRuntime, splitter: &Splitter) {
    tell(rt, &splitter.waiting());
    tell(rt, &splitter.frame().is_some());
    for _ in 0..2 {
        if !take_lacks_memory(rt, splitter) {
            break;
        }
    }
}

/// Feeds a piece, and prints how many of its bytes were taken.
fn fed(rt: &HostRuntime, splitter: &mut Splitter, piece: &[u8]) -> Option<usize>
    requires { splitter.old.stage ≢ Finished }
    ensures open { splitter.new.stage ≢ Finished }
    ensures within { IfSome result (λ n. n ≤ length piece.now) }
{
    match splitter.feed(piece) {
        Ok(count) => {
            tell(rt, &count);
            Some(count)
        }
        Err(error) => {
            tell_error(rt, &error);
            None
        }
    }
}

/// Feeds a stream in pieces, and prints each part. Whether all was taken. Of a piece that isn't
/// empty at least one byte is taken, so there are no more pieces than bytes.
fn feeds_all(rt: &HostRuntime, splitter: &mut Splitter, stream: &[u8], piece: usize) -> bool
    requires { splitter.old.stage ≢ Finished }
    ensures { splitter.new.stage ≢ Finished }
{
    let mut rest = stream;
    for _ in 0..stream.len() {
        if rest.is_empty() {
            return true;
        }
        let end = rest.len().min(piece);
        let Some(count) = fed(rt, splitter, &rest[..end]) else {
            return false;
        };
        tell_taken(rt, splitter);
        rest = &rest[count..];
    }
    true
}

/// Prints what a splitter answers once it has failed.
fn tell_failed(rt: &HostRuntime, splitter: &mut Splitter)
    requires { splitter.old.stage ≢ Finished }
{
    let _ = fed(rt, splitter, b"x");
    tell(rt, &splitter.waiting());
    take_lacks_memory(rt, splitter);
    let finished = splitter.finish();
    tell(rt, &finished);
}

fn split(rt: &HostRuntime, stream: &[u8], piece: usize) {
    let mut splitter = Splitter::new(rt.alloc());
    if !feeds_all(rt, &mut splitter, stream, piece) {
        tell_failed(rt, &mut splitter);
        return;
    }
    match splitter.finish() {
        Ok(()) => {
            tell(rt, &"finished");
            tell_taken(rt, &splitter);
        }
        Err(error) => {
            tell_error(rt, &error);
            tell_failed(rt, &mut splitter);
        }
    }
}
