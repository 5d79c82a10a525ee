//! The check of a stream over a reader and a writer. The parts of the stream are judged one after
//! another, while the reader gives its bytes, and a taker says what is written of each.

ghost use Rattle.std.specs.Prelude.{◌≡◌, ℕ, List, [], IfOk, IfErr};
ghost use Rattle.fz_search.specs.of_model.Texts.{IsLoadedFromWithin};
ghost use Rattle.fz_check.specs.Cutting.{HoldsOfJudged};
ghost use Rattle.fz_check.specs.Headline.{HasSolutionsWithin, HoldsOfStream};
ghost use Rattle.fz_check.specs.Reported.{HasSolutions, HoldsOfModelWithin};
ghost use Rattle.fz_check.specs.Reading.{SpendsReads};
ghost use Rattle.fz_check.specs.Streaming.{IsEnded, IsEndedWith, IsReported, IsReportedWith, most_reads};
ghost use Rattle.fz_check.specs.Telling.{AnswersOnceWritten, Stands, StopsOnceWritten};
ghost use Rattle.fz_check.specs.View.{answer_view};

use crate::account::Answer;
use crate::checking::read_model;
use crate::cutting::cut_off;
use crate::error::CheckError;
use crate::event::{Taker, TextTaker};
use crate::jury::Jury;
use crate::options::Options;
use crate::pieces::ReadFailed;
use crate::reader::{PartReader, Step};
use crate::telling::{gather, tell_end, tell_next};
use crate::writing::{WriteFailed, write_lines};
use fz_store::Model;
use std::alloc::Global;
use std::io::{Read, Write};

/// Judges each block, and gathers the lines. All are written before each read; those that came
/// after the last one are left to be written.
fn tell_parts<R: Read, W: Write, T: Taker>(
    alloc: Global,
    model: &Model<'_>,
    reader: &mut R,
    writer: &mut W,
    taker: &mut T,
    reads: u64,
    options: Options<'_>,
    lines: &mut Vec<u8>,
) -> Result<Answer, CheckError>
    requires none { lines.old.items ≡ [] }
    ensures stands { Stands options.entry T.text model.now reads (R.remaining reader.old)
        (R.remaining reader.new) (W.contents writer.old) (W.contents writer.new) lines.new.items }
    ensures answered { IfOk result (λ a. AnswersOnceWritten options.entry T.text model.now reads
        (R.remaining reader.old) (R.remaining reader.new) (W.contents writer.old)
        (W.contents writer.new) lines.new.items (answer_view a)) }
    ensures refused { IfErr result (StopsOnceWritten options.entry T.text model.now
        (R.remaining reader.old) (R.remaining reader.new) (W.contents writer.old)
        (W.contents writer.new) lines.new.items) }
{
    let mut jury = Jury::new(model, options);
    let mut parts = PartReader::new(alloc, reads, options.limits);
    // A line is made apart, so that running out of memory in its midst leaves whole lines.
    let mut line = Vec::new(alloc);
    loop {
        match parts.advance() {
            Ok(Step::Part) => {
                match tell_next(alloc, &parts, &mut jury, taker, &mut line) {
                    Ok(()) => {}
                    Err(error) => return Err(error),
                }
                match gather(writer, lines, &line) {
                    Ok(()) => {}
                    Err(error) => return Err(error),
                }
            }
            Ok(Step::Bytes) => {
                match write_lines(writer, lines) {
                    Ok(()) => {}
                    Err(WriteFailed) => return Err(CheckError::Write),
                }
                match parts.read(reader) {
                    Ok(()) => {}
                    Err(ReadFailed) => return Err(CheckError::Read),
                }
            }
            Ok(Step::End) => {
                return tell_end(taker, &mut line, lines, None, jury.answer());
            }
            Ok(Step::Open(span)) => {
                let cut = match cut_off(alloc, model, options, span, parts.left_open()) {
                    Ok(cut) => cut,
                    Err(error) => return Err(error),
                };
                return tell_end(taker, &mut line, lines, Some(cut), jury.answer());
            }
            Err(error) => return Err(error),
        }
    }
}

/// Judges each block of the stream that a reader gives, and writes what the taker says of each
/// event, with at most `reads` reads of 4,096 bytes. What is to be written for all that was read so
/// far is written before the next read, and before any answer. One block at a time is in memory.
///
/// Where completion is on, a block is judged by its second filling, and values are searched for
/// that the solver left out. What is found is judged as the filling is: it makes no block violated.
/// It can make an undecided block satisfied, and a satisfied one undecided, where its objective
/// isn't better than one that was found for the block before.
///
/// Where cutting is on, a stream that ends inside a block is no fault, if only the end of the block
/// is missing: what there is of it is the front of items whose names are declared, or its whole
/// lines are such items, and the last line is the front of a marker or a claim. The block is cut
/// off, which is told before the answer, and the bytes before it are judged.
///
/// Where claims are judged, one is told as refuted at its place, or behind the block that refutes
/// it. Where they are to be proved too, a search is made for one that nothing refutes at its place,
/// and it is told as proved where that shows that it is true.
///
/// # Errors
///
/// `Model` and `Names` as `check` has them, before anything is read or written. Then the first
/// fault in the stream's order: `Stream` where no stream continues in this way, or where more bytes
/// would have to be held than may be, `Block` with the first fault of a block. `Read` where a read
/// fails or the most reads have been made, `Write` where a write fails or takes nothing, and
/// `Memory` where memory runs out.
pub fn check_events<R: Read, W: Write, T: Taker>(
    alloc: Global,
    model: &[u8],
    reader: &mut R,
    writer: &mut W,
    taker: &mut T,
    reads: u64,
    options: Options<'_>,
) -> Result<Answer, CheckError>
    // What is accepted has solutions.
    ensures accepted { IfOk result (λ a. (count : ℕ) → a ≡ Answer.Accepted count
        → HoldsOfModelWithin options.entry.limits model.now
        (λ m. HoldsOfStream (R.remaining reader.old) (R.remaining reader.new)
        (λ given. HoldsOfJudged options.entry.limits options.entry.ending m given
        (λ front _. HasSolutionsWithin options.entry.limits model.now front count)))) }
    // The writer got the report on all that the reader gave up to its end, but for what is cut off,
    // which is told, and nothing else.
    ensures report { IfOk result (λ a. HoldsOfModelWithin options.entry.limits model.now
        (λ m. HoldsOfStream (R.remaining reader.old) (R.remaining reader.new)
        (λ given. HoldsOfJudged options.entry.limits options.entry.ending m given
        (λ front cut. IsReportedWith options.entry cut T.text model.now front
        (W.contents writer.old) (W.contents writer.new) (answer_view a))))) }
    // The model, the stream or a block is refused only for its first fault. What was told of the
    // parts before it was written, and nothing else.
    ensures refused { IfErr result (IsEndedWith options.entry T.text model.now
        (R.remaining reader.old) (R.remaining reader.new) (W.contents writer.old)
        (W.contents writer.new)) }
    // No more bytes were read than so many reads of 4,096 bytes can bring, and where there is an
    // answer no more than one read fewer can.
    ensures reads { SpendsReads reads 0 (R.remaining reader.old) (R.remaining reader.new) }
    ensures end_read { IfOk result
        (λ _. SpendsReads reads 1 (R.remaining reader.old) (R.remaining reader.new)) }
{
    let loaded = match read_model(alloc, model, options.limits) {
        Ok(loaded) => loaded,
        Err(error) => return Err(error),
    };
    check_loaded(alloc, &loaded, reader, writer, taker, reads, options)
}

/// As `check_events`, with a model that is loaded: what is said there of the model's text is so of
/// each that it may have been loaded from, within the limits.
///
/// # Errors
///
/// As `check_events`, but for `Model` and `Names`.
pub fn check_loaded<R: Read, W: Write, T: Taker>(
    alloc: Global,
    model: &Model<'_>,
    reader: &mut R,
    writer: &mut W,
    taker: &mut T,
    reads: u64,
    options: Options<'_>,
) -> Result<Answer, CheckError>
    ensures accepted { IfOk result (λ a. (count : ℕ) → a ≡ Answer.Accepted count
        → (source : List ℕ) → IsLoadedFromWithin options.entry.limits source model.now
        → HoldsOfStream (R.remaining reader.old) (R.remaining reader.new)
        (λ given. HoldsOfJudged options.entry.limits options.entry.ending model.now given
        (λ front _. HasSolutionsWithin options.entry.limits source front count))) }
    ensures report { IfOk result (λ a. (source : List ℕ)
        → IsLoadedFromWithin options.entry.limits source model.now
        → HoldsOfStream (R.remaining reader.old) (R.remaining reader.new)
        (λ given. HoldsOfJudged options.entry.limits options.entry.ending model.now given
        (λ front cut. IsReportedWith options.entry cut T.text source front
        (W.contents writer.old) (W.contents writer.new) (answer_view a)))) }
    ensures refused { IfErr result (λ e. (source : List ℕ)
        → IsLoadedFromWithin options.entry.limits source model.now
        → IsEndedWith options.entry T.text source (R.remaining reader.old)
        (R.remaining reader.new) (W.contents writer.old) (W.contents writer.new) e) }
    ensures reads { SpendsReads reads 0 (R.remaining reader.old) (R.remaining reader.new) }
    ensures end_read { IfOk result
        (λ _. SpendsReads reads 1 (R.remaining reader.old) (R.remaining reader.new)) }
{
    let mut lines = Vec::new(alloc);
    let outcome = tell_parts(
        alloc, model, reader, writer, taker, reads, options, &mut lines,
    );
    match write_lines(writer, &mut lines) {
        Ok(()) => outcome,
        Err(WriteFailed) => Err(CheckError::Write),
    }
}

/// As `check_events` with `Options::STANDARD`, where the report is written as text.
///
/// # Errors
///
/// As `check_events`.
pub fn check_stream_up_to<R: Read, W: Write>(
    alloc: Global,
    model: &[u8],
    reader: &mut R,
    writer: &mut W,
    reads: u64,
) -> Result<Answer, CheckError>
    ensures accepted { IfOk result (λ a. (count : ℕ) → a ≡ Answer.Accepted count
        → HoldsOfStream (R.remaining reader.old) (R.remaining reader.new)
        (λ given. HasSolutions model.now given count)) }
    ensures report { IfOk result (λ a. HoldsOfStream (R.remaining reader.old)
        (R.remaining reader.new) (λ given. IsReported model.now given (W.contents writer.old)
        (W.contents writer.new) (answer_view a))) }
    ensures refused { IfErr result (IsEnded model.now (R.remaining reader.old)
        (R.remaining reader.new) (W.contents writer.old) (W.contents writer.new)) }
    ensures reads { SpendsReads reads 0 (R.remaining reader.old) (R.remaining reader.new) }
    ensures end_read { IfOk result
        (λ _. SpendsReads reads 1 (R.remaining reader.old) (R.remaining reader.new)) }
{
    let mut taker = TextTaker;
    check_events(
        alloc,
        model,
        reader,
        writer,
        &mut taker,
        reads,
        Options::STANDARD,
    )
}

/// The most reads that `check_stream` makes.
pub const MOST_READS: u64 = 4_294_967_296;

/// As `check_stream_up_to`, with at most 4,294,967,296 reads.
///
/// # Errors
///
/// As `check_events`.
pub fn check_stream<R: Read, W: Write>(
    alloc: Global,
    model: &[u8],
    reader: &mut R,
    writer: &mut W,
) -> Result<Answer, CheckError>
    ensures accepted { IfOk result (λ a. (count : ℕ) → a ≡ Answer.Accepted count
        → HoldsOfStream (R.remaining reader.old) (R.remaining reader.new)
        (λ given. HasSolutions model.now given count)) }
    ensures report { IfOk result (λ a. HoldsOfStream (R.remaining reader.old)
        (R.remaining reader.new) (λ given. IsReported model.now given (W.contents writer.old)
        (W.contents writer.new) (answer_view a))) }
    ensures refused { IfErr result (IsEnded model.now (R.remaining reader.old)
        (R.remaining reader.new) (W.contents writer.old) (W.contents writer.new)) }
    ensures reads { SpendsReads most_reads 0 (R.remaining reader.old) (R.remaining reader.new) }
    ensures end_read { IfOk result
        (λ _. SpendsReads most_reads 1 (R.remaining reader.old) (R.remaining reader.new)) }
{
    check_stream_up_to(alloc, model, reader, writer, MOST_READS)
}
