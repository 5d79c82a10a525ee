//! What the blocks of other solvers' streams tell of a model. Each is judged by itself.

ghost use Rattle.std.specs.Prelude.{◌≡◌, ℕ, List, [], ◌∷◌, ◌++◌, Option, OnOk, IsSome};
ghost use Rattle.fz_filling.specs.of_stream.Parts.{Frame, StreamPart};
ghost use Rattle.fz_filling.specs.of_syntax.Limits.{Limits};
ghost use Rattle.fz_check.specs.Claims.{Knows};
ghost use Rattle.fz_check.specs.Reading.{HasNext, StandsAt};

use crate::claims::{Known, Source};
use crate::error::CheckError;
use crate::judge::Judge;
use crate::options::Options;
use crate::pieces::ReadFailed;
use crate::reader::{PartReader, Step};
use fz_filling::{BlockError, Verdict};
use fz_store::Model;
use fz_stream::{Block, Part, StreamError};
use std::alloc::Global;
use std::io::Read;

/// Who is told of the blocks of a known stream that refute nothing.
pub trait Listener {
    /// Is told of a block that isn't satisfied, by its number from 1: the verdict on it, or why it
    /// doesn't fit the model.
    fn hear(&mut self, number: usize, outcome: Result<Verdict<'_>, BlockError>);
}

/// Learns of the next block, by itself. The source is that of the block before.
fn learn_block<'k, L: Listener>(
    alloc: Global,
    judge: &mut Judge<'_, '_>,
    listener: &mut L,
    source: &mut Source<'k>,
    known: &mut Known<'k>,
    block: &Block<'_>,
) -> Result<(), CheckError>
    ensures same_model { judge.new.model ≡ judge.old.model }
    ensures knows { Knows judge.old.model known.old → Knows judge.old.model known.new }
{
    source.block = source.block.saturating_add(1);
    judge.forget();
    match judge.judge(alloc, block) {
        Ok(Verdict::Satisfied) => {
            *known = known.with(judge.model().goal(), judge.objective(), *source);
            Ok(())
        }
        Err(BlockError::Memory) => Err(CheckError::Memory),
        outcome => {
            listener.hear(source.block, outcome);
            Ok(())
        }
    }
}

/// Learns of the part that waits, which is read for it.
fn learn_next<'k, L: Listener>(
    alloc: Global,
    parts: &PartReader,
    judge: &mut Judge<'_, '_>,
    listener: &mut L,
    source: &mut Source<'k>,
    known: &mut Known<'k>,
) -> Result<(), CheckError>
    requires waits { IsSome parts.now.splitter.waits }
    ensures same_model { judge.new.model ≡ judge.old.model }
    ensures knows { Knows judge.old.model known.old → Knows judge.old.model known.new }
    ensures read { OnOk result ((limits : Limits) (left : Option (List ℕ)) (given : List ℕ)
        (before : List StreamPart) (frame : Frame)
        → HasNext limits parts.now left given before frame
        → (part : StreamPart) × StandsAt limits parts.now left given (before ++ part ∷ [])) }
{
    let part = match parts.take() {
        Ok(part) => part,
        Err(error) => return Err(error),
    };
    match &part {
        Part::Block(block) => learn_block(alloc, judge, listener, source, known, block),
        Part::Claim(_) => Ok(()),
    }
}

/// Judges each block of the stream that a reader gives by itself: it needn't be better than the one
/// before it. What is known gets the first satisfied block, where there was none, and the best
/// objective; a block that isn't satisfied, or doesn't fit the model, changes nothing. One block at
/// a time is in memory. With completion on, what is found counts, since it is judged.
///
/// `source` has the stream's name, and no block. Of the options completion and limits count: no
/// block is cut off, and no claim is judged.
///
/// # Errors
///
/// `Stream` with the stream's first fault, `Read` where a read fails or the most reads have been
/// made, and `Memory` where memory runs out. What was learned before it stays.
pub fn learn<'k, R: Read, L: Listener>(
    alloc: Global,
    model: &Model<'_>,
    reader: &mut R,
    listener: &mut L,
    reads: u64,
    mut source: Source<'k>,
    known: &mut Known<'k>,
    options: Options<'_>,
) -> Result<(), CheckError>
    // What is known stays so: there are such solutions.
    ensures knows { Knows model.now known.old → Knows model.now known.new }
{
    let mut parts = PartReader::new(alloc, reads, options.limits);
    let mut judge = Judge::completing(model, options.completion, options.steps);
    loop {
        match parts.advance() {
            Ok(Step::Part) => {
                match learn_next(alloc, &parts, &mut judge, listener, &mut source, known) {
                    Ok(()) => {}
                    Err(error) => return Err(error),
                }
            }
            Ok(Step::Bytes) => match parts.read(reader) {
                Ok(()) => {}
                Err(ReadFailed) => return Err(CheckError::Read),
            },
            Ok(Step::End) => return Ok(()),
            Ok(Step::Open(span)) => {
                return Err(CheckError::Stream(StreamError::Unfinished(span)));
            }
            Err(error) => return Err(error),
        }
    }
}
