//! Cuts a stream that comes in pieces.

ghost use Rattle.std.specs.Prelude.{◌≡◌, ◌≢◌, ℕ, ◌+◌, ◌≤◌, ◌<◌, List, [], ◌∷◌, ◌++◌, ◌↔◌, length, take, Ok, Err, Some, None, IfOk, IfSome, OnOk, OnErr, IfErr, IsTrue, IsSome, option_map};
ghost use Rattle.fz_syntax.specs.Places.{standard_limits};
ghost use Rattle.fz_stream.specs.Broken.{BreaksAfter, CannotGoOn, CannotEnd};
ghost use Rattle.fz_stream.specs.Faults.{IsStreamFault, IsCuttingFault, IsFaultWithin};
ghost use Rattle.fz_stream.specs.Parts.{lines_of, Frame as PlainFrame, Covers, frame_of};
ghost use Rattle.fz_stream.specs.Splitting.{BeginsWithHeld, Fits, HasRoomFor, PassesLimit, EndsWith, IsPartOfItems, frames_in, most_taken};

use crate::block::{Block, read_block};
use crate::error::StreamError;
use crate::held::{Ended, Held, drop_frame, end_stream, take_bytes};
use crate::line::ClaimKind;
use fz_syntax::Limits;
use std::alloc::Global;
use std::marker::Model;

/// A part of a stream as its lines tell it: what a block prints isn't read.
#[derive(Clone, Copy)]
pub enum Frame<'a> {
    /// The byte offset of a block's text in the stream, and the text.
    Block(usize, &'a [u8]),
    Claim(ClaimKind),
}

/// A part of a stream that a splitter lends.
#[derive(Drop)]
pub enum Part<'a> {
    Block(Block<'a>),
    Claim(ClaimKind),
}

/// Whether a splitter takes more of the stream, has reached its end, or has failed.
#[derive(Clone, Copy)]
pub enum Stage {
    Running,
    Finished,
    Failed,
}

/// Cuts a stream, fed in pieces, at its lines, a block or a claim at a time. It holds the text of
/// the open block and the current line, which together have at most as many bytes as its limits
/// allow for a text, and takes at most 1,099,511,627,776 in all.
#[derive(Drop)]
pub struct Splitter {
    alloc: Global,
    held: Held,
    ended: Option<Ended>,
    stage: Stage,
    limits: Limits,
}

impl Model for Splitter {
    ghost use Rattle.fz_stream.specs.Splitting.{SplitterState};

    ghost Value = { SplitterState };

    ghost use Rattle.fz_stream.specs.Inside.{state_of, IsSplitter};

    ghost view = { state_of };

    ghost invariant = { IsSplitter };
}

impl Splitter {
    ghost use Rattle.fz_stream.specs.declared.splitter.Stage.TheVariants.{Running, Finished, Failed as FailedStage};
    ghost use Rattle.fz_stream.specs.Lending.{plain_frame, part_of, FrameIsShort, FrameEndsWithin, HasPlacesOfItems, PartEndsWithin};

    /// A splitter that has taken nothing, at the standard limits.
    pub fn new(alloc: Global) -> Splitter
        ensures fits { Fits result [] [] }
        ensures limits { result.limits ≡ standard_limits }
    {
        Splitter::within(alloc, Limits::STANDARD)
    }

    /// A splitter that has taken nothing. The limits are those of what it holds, and of the items
    /// of a block.
    #[tactic(auto, using(crate::proofs::TakeLemmas::fits_nothing))]
    pub fn within(alloc: Global, limits: Limits) -> Splitter
        ensures fits { Fits result [] [] }
        ensures limits { result.limits ≡ limits }
    {
        Splitter {
            alloc,
            held: Held {
                buffer: Vec::new(alloc),
                line: 0,
                before: 0,
            },
            ended: None,
            stage: Stage::Running,
            limits,
        }
    }

    /// Whether a block or claim waits to be taken.
    pub fn waiting(&self) -> bool
        ensures { IsTrue result ↔ IsSome self.now.waits }
    {
        self.ended.is_some()
    }

    /// The frame that waits, as often as it is asked for.
    pub fn frame(&self) -> Option<Frame<'_>>
        ensures waits { option_map plain_frame result ≡ self.now.waits }
        ensures short { IfSome result (FrameIsShort self.now.limits.bytes) }
        ensures within { IfSome result (FrameEndsWithin self.now.taken) }
        ensures taken { self.now.taken ≤ most_taken }
    {
        match self.ended {
            None => None,
            Some(Ended::ClaimEnded(kind)) => Some(Frame::Claim(kind)),
            Some(Ended::BlockEnded) => {
                let text = &self.held.buffer[..self.held.line];
                Some(Frame::Block(self.held.before, text))
            }
        }
    }

    /// The text of the open block and the current line. Where the end of the stream has left a block
    /// open, that is all of it.
    pub fn held(&self) -> &[u8]
        ensures { result.now ≡ self.now.held }
    {
        match self.ended {
            None => &self.held.buffer,
            Some(_) => &[],
        }
    }

    /// Lends the part that waits, as often as it is called, and reads a block's text each time. An
    /// error changes nothing.
    pub fn take(&self) -> Result<Option<Part<'_>>, StreamError>
        // It is that of the frame that waits.
        ensures lent { IfOk result
            (λ part. option_map (λ p. frame_of (part_of p)) part ≡ self.now.waits) }
        ensures items { IfOk result
            (λ part. IfSome part (λ p. IsPartOfItems self.now.limits (part_of p))) }
        ensures places { IfOk result (λ part. IfSome part HasPlacesOfItems) }
        ensures within { IfOk result (λ part. IfSome part (PartEndsWithin most_taken)) }

        // A text is refused only where no further bytes can mend the stream.
        ensures broken { IfErr result (λ e. e ≢ StreamError.Memory → e ≢ StreamError.Failed →
            (bytes more : List ℕ) (frames : List PlainFrame) (frame : PlainFrame)
            → Fits self.now bytes (frames ++ frame ∷ [])
            → BreaksAfter self.now.limits CannotGoOn (bytes ++ more) frames e) }
        ensures broken_at_end { IfErr result (λ e. e ≢ StreamError.Memory → e ≢ StreamError.Failed →
            (bytes : List ℕ) (frames : List PlainFrame) → EndsWith self.now.waits bytes frames
            → BreaksAfter self.now.limits CannotEnd bytes frames e) }
        ensures failed { (result ≡ Err StreamError.Failed) ↔ (self.now.stage ≡ FailedStage) }
        ensures fault { IfErr result (λ e. e ≢ StreamError.Failed → IsStreamFault e) }
        ensures place { IfErr result (IsFaultWithin self.now.taken) }
    {
        match self.stage {
            Stage::Failed => return Err(StreamError::Failed),
            Stage::Running | Stage::Finished => {}
        }
        match self.frame() {
            None => Ok(None),
            Some(Frame::Claim(kind)) => Ok(Some(Part::Claim(kind))),
            Some(Frame::Block(offset, text)) => match read_block(
                self.alloc,
                offset,
                text,
                self.limits,
            ) {
                Ok(block) => Ok(Some(Part::Block(block))),
                Err(e) => Err(e),
            },
        }
    }

    /// Drops the frame that waits, takes bytes up to the end of the line that ends the next frame,
    /// or all of them, and gives how many. After an error the splitter has failed for good.
    pub fn feed(&mut self, piece: &[u8]) -> Result<usize, StreamError>
        requires { self.old.stage ≢ Finished }
        // The splitter's state is one that fits these bytes, whatever was taken before.
        ensures fits { IfOk result (λ n. (bytes : List ℕ) (frames : List PlainFrame)
            → Fits self.old bytes frames
            → Fits self.new (bytes ++ take n piece.now) (frames ++ frames_in self.new.waits)) }
        // The last byte that was taken ends the frame that waits.
        ensures ends { IfOk result (λ n. (bytes : List ℕ) (frames : List PlainFrame)
            → Fits self.old bytes frames → IsSome self.new.waits → Covers
            (lines_of (bytes ++ take n piece.now)) (frames ++ frames_in self.new.waits) [] []) }
        ensures some { IfOk result (λ n. IsSome self.new.waits → 0 < n) }
        ensures all { IfOk result (λ n. self.new.waits ≡ None → n ≡ length piece.now) }
        ensures within { IfOk result (λ n. n ≤ length piece.now) }
        ensures ok { OnOk result (self.new.stage ≡ Running) }
        ensures held { OnOk result (length self.new.held ≤ self.new.limits.bytes) }
        ensures taken { OnOk result (self.new.taken ≤ most_taken) }
        // The limits bind at each byte that is taken.
        ensures room { IfOk result (λ n. (bytes : List ℕ) (frames : List PlainFrame)
            → Fits self.old bytes frames
            → HasRoomFor self.old.limits.bytes bytes piece.now frames n) }

        // A fault comes only where no further bytes can mend the stream.
        ensures broken { IfErr result (λ e. e ≢ StreamError.Memory → e ≢ StreamError.TooLong
            → e ≢ StreamError.Failed →
            (bytes : List ℕ) (frames : List PlainFrame) → Fits self.old bytes frames
            → BreaksAfter self.old.limits CannotGoOn (bytes ++ piece.now) frames e) }
        ensures too_long { result ≡ Err StreamError.TooLong
            → (bytes : List ℕ) (frames : List PlainFrame) → Fits self.old bytes frames
            → PassesLimit self.old.limits.bytes bytes piece.now frames }
        ensures failed { (result ≡ Err StreamError.Failed) ↔ (self.old.stage ≡ FailedStage) }
        ensures fault { IfErr result (λ e. e ≢ StreamError.Failed → IsCuttingFault e) }
        ensures place { IfErr result (IsFaultWithin (self.old.taken + length piece.now)) }
        ensures err { OnErr result ((self.new.stage ≡ FailedStage) × (self.new.waits ≡ None)) }
        ensures limits { self.new.limits ≡ self.old.limits }
    {
        match self.stage {
            Stage::Failed => return Err(StreamError::Failed),
            Stage::Running | Stage::Finished => {}
        }
        drop_frame(&mut self.held, self.ended);
        self.ended = None;
        match take_bytes(&mut self.held, piece, self.limits.bytes()) {
            Ok((n, ended)) => {
                self.ended = ended;
                Ok(n)
            }
            Err(e) => {
                self.stage = Stage::Failed;
                Err(e)
            }
        }
    }

    /// Drops the frame that waits, and ends the stream; the current line, where it isn't empty, is
    /// its last. After that a frame may wait. After an error the splitter has failed for good.
    pub fn finish(&mut self) -> Result<(), StreamError>
        requires { self.old.stage ≢ Finished }
        ensures ends { OnOk result ((bytes : List ℕ) (frames : List PlainFrame)
            → Fits self.old bytes frames → EndsWith self.new.waits bytes frames) }
        ensures ok { OnOk result (self.new.stage ≡ Finished) }

        // A fault comes only where the bytes that were taken are a text of no parts.
        ensures broken { IfErr result (λ e. e ≢ StreamError.Failed →
            (bytes : List ℕ) (frames : List PlainFrame) → Fits self.old bytes frames
            → BreaksAfter self.old.limits CannotEnd bytes frames e) }
        ensures failed { (result ≡ Err StreamError.Failed) ↔ (self.old.stage ≡ FailedStage) }
        ensures fault { IfErr result (λ e. e ≢ StreamError.Failed
            → IsCuttingFault e × (e ≢ StreamError.TooLong)) }
        ensures place { IfErr result (IsFaultWithin self.old.taken) }
        // The block that is left open is what is held, before the end and behind it.
        ensures begins { IfErr result (BeginsWithHeld self.old) }
        ensures kept { OnErr result (self.new.held ≡ self.old.held) }
        ensures err { OnErr result ((self.new.stage ≡ FailedStage) × (self.new.waits ≡ None)) }
        ensures limits { self.new.limits ≡ self.old.limits }
    {
        match self.stage {
            Stage::Failed => return Err(StreamError::Failed),
            Stage::Running | Stage::Finished => {}
        }
        drop_frame(&mut self.held, self.ended);
        self.ended = None;
        match end_stream(&mut self.held) {
            Ok(last) => {
                self.ended = last;
                self.stage = Stage::Finished;
                Ok(())
            }
            Err(span) => {
                self.stage = Stage::Failed;
                Err(StreamError::Unfinished(span))
            }
        }
    }
}
