//! The parts of a stream, one after another, as its reader gives its bytes.

ghost use Rattle.std.specs.Prelude.{◌≡◌, ◌≢◌, ℕ, Option, ◌+◌, ◌<◌, ◌≤◌, List, [], ◌∷◌, ◌++◌, length, map, Ok, Some, IfOk, IfSome, OnOk, OnErr, IfErr, IsSome, true, false};
ghost use Rattle.std.specs.Io.KnownBytes.{Consumes, IsAtEnd};
ghost use Rattle.fz_filling.specs.of_stream.Parts.{IsStreamTextWithin, StreamPart, Frame, frame_of};
ghost use Rattle.fz_filling.specs.of_syntax.Limits.{Limits};
ghost use Rattle.fz_search.specs.of_model.Meaning.{Model as PlainModel};
ghost use Rattle.fz_filling.specs.of_stream.Splitting.{EndsLast, most_taken};
ghost use Rattle.fz_check.specs.Reading.{HasNext, HasRead, StandsAt, WaitsInside, piece_size, steps_left};
ghost use Rattle.fz_check.specs.Telling.{IsLeftOpen, IsUnread, broken_end};

use crate::error::{CheckError, stream_refusal};
use crate::pieces::{Pieces, ReadFailed};
use fz_stream::{Limits, Part, Span, Splitter, StreamError};
use std::alloc::Global;
use std::io::Read;
use std::marker::Model;

/// What there is to do next with a stream.
#[derive(Clone, Copy, PartialEq, Eq)]
pub(crate) enum Step {
    /// A further part has ended, and waits to be read.
    Part,
    /// All bytes that were read are taken: more have to be read.
    Bytes,
    /// The stream has ended, and all of its parts were read.
    End,
    /// The stream has ended inside a block, which has this byte range, behind all parts that were
    /// read.
    Open(Span),
}

/// What there is to do with a stream that can't end as it is.
fn broken_end(error: StreamError) -> Result<Step, CheckError>
    ensures is { result ≡ broken_end error }
    ensures not_part { result ≢ Ok Step.Part }
{
    match error {
        StreamError::Unfinished(span) => Ok(Step::Open(span)),
        error => Err(stream_refusal(error)),
    }
}

/// The parts of a stream whose bytes a reader gives, one after another. At most 4,096 bytes are
/// read at a time, and one block is held.
#[derive(Drop)]
pub(crate) struct PartReader {
    splitter: Splitter,
    pieces: Pieces,
    has_ended: bool,
}

impl Model for PartReader {
    ghost use Rattle.fz_check.specs.Reading.{ReaderState};

    ghost Value = { ReaderState };

    ghost use Rattle.fz_check.specs.Inside.{state_of, IsReader};

    ghost view = { state_of };

    ghost invariant = { IsReader };
}

impl PartReader {
    ghost use Rattle.fz_filling.specs.of_syntax.Span.{Span as SpanData};
    ghost use Rattle.fz_check.specs.declared.options.Ending.{Ending};
    ghost use Rattle.fz_filling.specs.of_stream.declared.splitter.Stage.TheVariants.{Running, Finished};
    ghost use Rattle.fz_filling.specs.of_stream.Lending.{part_of, HasPlacesOfItems, PartEndsWithin};

    /// Nothing is read yet, and at most so many reads will be made.
    pub(crate) fn new(alloc: Global, reads: u64, limits: Limits) -> PartReader
        ensures nothing { HasRead limits result [] [] }
        ensures pieces { result.pieces ≡ record { pending = []; reads = reads; at_end = false } }
    {
        PartReader {
            splitter: Splitter::within(alloc, limits),
            pieces: Pieces::new(reads),
            has_ended: false,
        }
    }

    /// Feeds the splitter with what was read, up to the end of the next part.
    fn feed(&mut self) -> Result<Step, CheckError>
        requires going { self.old.splitter.stage ≢ Finished }
        requires open { self.old.pieces.at_end ≡ false }
        ensures going { OnOk result (self.new.splitter.stage ≡ Running) }
        ensures reads { self.new.pieces.reads ≡ self.old.pieces.reads }
        ensures at_end { self.new.pieces.at_end ≡ self.old.pieces.at_end }
        ensures limits { self.new.splitter.limits ≡ self.old.splitter.limits }
        ensures waits { result ≡ Ok Step.Part → IsSome self.new.splitter.waits }
        ensures fewer { result ≡ Ok Step.Part → (limits : Limits) (given : List ℕ)
            (parts : List StreamPart) → HasRead limits self.old given parts
            → length self.new.pieces.pending < length self.old.pieces.pending }
        ensures more { result ≡ Ok Step.Part → (limits : Limits) (given : List ℕ)
            (parts : List StreamPart) → HasRead limits self.old given parts → (frame : Frame)
            × (self.new.splitter.waits ≡ Some frame) × WaitsInside self.new given parts frame }
        ensures none { result ≡ Ok Step.Bytes → (limits : Limits) (given : List ℕ)
            (parts : List StreamPart) → HasRead limits self.old given parts
            → (self.new.pieces.pending ≡ []) × HasRead limits self.new given parts }
        ensures not_end { result ≢ Ok Step.End }
        ensures not_open { (span : SpanData) → result ≢ Ok (Step.Open span) }
        ensures refused { IfErr result (λ e. (limits : Limits) (ending : Ending) (m : PlainModel)
            (left : Option (List ℕ)) (given : List ℕ) (parts : List StreamPart)
            → HasRead limits self.old given parts → IsUnread limits ending m left given parts e) }
    {
        let PartReader {
            splitter,
            pieces,
            ..
        } = self;
        let n = match splitter.feed(pieces.pending()) {
            Ok(n) => n,
            Err(error) => return Err(stream_refusal(error)),
        };
        pieces.take(n);
        if splitter.waiting() {
            return Ok(Step::Part);
        }
        Ok(Step::Bytes)
    }

    /// Ends the stream, whose bytes were all taken.
    fn finish(&mut self) -> Result<Step, CheckError>
        requires at_end { self.old.pieces.at_end ≡ true }
        requires going { self.old.splitter.stage ≢ Finished }
        ensures same { self.new.pieces ≡ self.old.pieces }
        ensures limits { self.new.splitter.limits ≡ self.old.splitter.limits }
        ensures ended { result ≡ Ok Step.Part → self.new.splitter.stage ≡ Finished }
        ensures waits { result ≡ Ok Step.Part → IsSome self.new.splitter.waits }
        ensures more { result ≡ Ok Step.Part → (limits : Limits) (given : List ℕ)
            (parts : List StreamPart) → HasRead limits self.old given parts → (frame : Frame)
            × (self.new.splitter.waits ≡ Some frame) × EndsLast given (map frame_of parts) frame }
        ensures end { result ≡ Ok Step.End → (limits : Limits) (given : List ℕ)
            (parts : List StreamPart) → HasRead limits self.old given parts
            → IsStreamTextWithin limits given parts }
        ensures open { (span : SpanData) → result ≡ Ok (Step.Open span) → (limits : Limits)
            (given : List ℕ) (parts : List StreamPart) → HasRead limits self.old given parts
            → IsLeftOpen limits given parts span self.new.splitter.held }
        ensures not_bytes { result ≢ Ok Step.Bytes }
        ensures refused { IfErr result (λ e. (limits : Limits) (ending : Ending) (m : PlainModel)
            (left : Option (List ℕ)) (given : List ℕ) (parts : List StreamPart)
            → HasRead limits self.old given parts → IsAtEnd left
            → IsUnread limits ending m left given parts e) }
    {
        match self.splitter.finish() {
            Ok(()) => {}
            Err(error) => return broken_end(error),
        }
        self.has_ended = true;
        if self.splitter.waiting() {
            return Ok(Step::Part);
        }
        Ok(Step::End)
    }

    /// Goes on to the end of the next part in what was read. After an error it fails for good.
    ///
    /// # Errors
    ///
    /// The stream's first fault, or `Memory` where memory runs out.
    pub(crate) fn advance(&mut self) -> Result<Step, CheckError>
        ensures part { result ≡ Ok Step.Part → (limits : Limits) (left : Option (List ℕ))
            (given : List ℕ) (parts : List StreamPart) → StandsAt limits self.old left given parts
            → (frame : Frame) × HasNext limits self.new left given parts frame }
        ensures waits { result ≡ Ok Step.Part → IsSome self.new.splitter.waits }
        ensures fewer { result ≡ Ok Step.Part → (limits : Limits) (left : Option (List ℕ))
            (given : List ℕ) (parts : List StreamPart) → StandsAt limits self.old left given parts
            → steps_left self.new < steps_left self.old }
        ensures bytes { result ≡ Ok Step.Bytes → (limits : Limits) (left : Option (List ℕ))
            (given : List ℕ) (parts : List StreamPart) → StandsAt limits self.old left given parts
            → (self.new.pieces.pending ≡ []) × HasRead limits self.new given parts }
        ensures open { result ≡ Ok Step.Bytes → self.new.pieces.at_end ≡ false }
        // The bytes have ended, and are a text of the parts so far.
        ensures end { result ≡ Ok Step.End → (limits : Limits) (left : Option (List ℕ))
            (given : List ℕ) (parts : List StreamPart) → StandsAt limits self.old left given parts
            → IsAtEnd left × IsStreamTextWithin limits given parts }
        ensures found_end { result ≡ Ok Step.End → self.old.pieces.at_end ≡ true }
        ensures ended { self.old.splitter.stage ≡ Finished → result ≡ Ok Step.End }
        // The bytes have ended, and leave a block open behind the parts so far.
        ensures left_open { (span : SpanData) → result ≡ Ok (Step.Open span) → (limits : Limits)
            (left : Option (List ℕ)) (given : List ℕ) (parts : List StreamPart)
            → StandsAt limits self.old left given parts
            → IsAtEnd left × IsLeftOpen limits given parts span self.new.splitter.held }
        ensures found_open { (span : SpanData) → result ≡ Ok (Step.Open span)
            → self.old.pieces.at_end ≡ true }
        ensures reads { self.new.pieces.reads ≡ self.old.pieces.reads }
        ensures at_end { self.new.pieces.at_end ≡ self.old.pieces.at_end }
        ensures refused { IfErr result (λ e. (limits : Limits) (ending : Ending) (m : PlainModel)
            (left : Option (List ℕ)) (given : List ℕ) (parts : List StreamPart)
            → StandsAt limits self.old left given parts
            → IsUnread limits ending m left given parts e) }
    {
        if self.has_ended {
            return Ok(Step::End);
        }
        if self.pieces.at_end() {
            return self.finish();
        }
        self.feed()
    }

    /// Reads once.
    ///
    /// # Errors
    ///
    /// A read failed, or as many were made as may be.
    pub(crate) fn read<R: Read>(&mut self, reader: &mut R) -> Result<(), ReadFailed>
        requires none { self.old.pieces.pending ≡ [] }
        requires going { self.old.pieces.at_end ≡ false }
        ensures same { self.new.splitter ≡ self.old.splitter }
        ensures given { Consumes (R.remaining reader.old)
            (R.remaining reader.new) self.new.pieces.pending }
        ensures size { length self.new.pieces.pending ≤ piece_size }
        ensures end { self.new.pieces.at_end ≡ true
            → (self.new.pieces.pending ≡ []) × IsAtEnd (R.remaining reader.new) }
        ensures reads { OnOk result (self.new.pieces.reads + 1 ≡ self.old.pieces.reads) }
        ensures fewer { self.new.pieces.reads ≤ self.old.pieces.reads }
        ensures failed { OnErr result
            ((self.new.pieces.pending ≡ []) × (self.new.pieces.at_end ≡ false)) }
    {
        self.pieces.read(reader)
    }

    /// The text that the end of the stream leaves open, where it does.
    pub(crate) fn left_open(&self) -> &[u8]
        ensures { result.now ≡ self.now.splitter.held }
    {
        self.splitter.held()
    }

    /// Lends the part that waits, and reads a block's text for it. An error changes nothing.
    ///
    /// # Errors
    ///
    /// The first fault of the block's text, or `Memory` where memory runs out.
    pub(crate) fn take(&self) -> Result<Part<'_>, CheckError>
        requires waits { IsSome self.now.splitter.waits }
        ensures places { IfOk result HasPlacesOfItems }
        ensures within { IfOk result (PartEndsWithin most_taken) }
        // It comes next, whatever was read before.
        ensures part { IfOk result (λ part. (limits : Limits) (left : Option (List ℕ))
            (given : List ℕ) (parts : List StreamPart) (frame : Frame)
            → HasNext limits self.now left given parts frame
            → StandsAt limits self.now left given (parts ++ part_of part ∷ [])) }
        ensures refused { IfErr result (λ e. (limits : Limits) (ending : Ending) (m : PlainModel)
            (left : Option (List ℕ)) (given : List ℕ) (parts : List StreamPart) (frame : Frame)
            → HasNext limits self.now left given parts frame
            → IsUnread limits ending m left given parts e) }
    {
        match self.splitter.take() {
            Ok(Some(part)) => Ok(part),
            Ok(None) => unreachable!(),
            Err(error) => Err(stream_refusal(error)),
        }
    }
}
