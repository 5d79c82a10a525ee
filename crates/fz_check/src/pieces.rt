//! The bytes that a reader gives, read by read.

ghost use Rattle.std.specs.Prelude.{◌≡◌, ◌+◌, ◌≤◌, [], drop, length, true, false, OnOk, OnErr};
ghost use Rattle.std.specs.Io.KnownBytes.{Consumes, IsAtEnd};
ghost use Rattle.fz_check.specs.Reading.{piece_size};

use std::io::Read;
use std::marker::Model;

/// The most bytes of one read.
const PIECE: usize = 4096;

/// A read failed, or as many were made as may be.
#[derive(Clone, Copy)]
pub(crate) struct ReadFailed;

/// The bytes of the last read that aren't taken yet.
#[derive(Drop)]
pub(crate) struct Pieces {
    buffer: [u8; PIECE],
    /// The bytes from `next` up to `end` in the buffer aren't taken yet.
    next: usize,
    end: usize,
    /// How many more reads may be made.
    reads: u64,
    /// Whether the last read found the end.
    at_end: bool,
}

impl Model for Pieces {
    ghost use Rattle.fz_check.specs.Reading.{PiecesState};

    ghost Value = { PiecesState };

    ghost use Rattle.fz_check.specs.Inside.{pieces_of, ArePieces};

    ghost view = { pieces_of };

    ghost invariant = { ArePieces };
}

impl Pieces {
    /// Nothing is read yet, and at most so many reads will be made.
    pub(crate) fn new(reads: u64) -> Pieces
        ensures { result ≡ record { pending = []; reads = reads; at_end = false } }
    {
        Pieces {
            buffer: [0; PIECE],
            next: 0,
            end: 0,
            reads,
            at_end: false,
        }
    }

    /// What is left.
    pub(crate) fn pending(&self) -> &[u8]
        ensures { result.now ≡ self.now.pending }
    {
        &self.buffer[self.next..self.end]
    }

    /// Takes so many bytes of what is left.
    pub(crate) fn take(&mut self, n: usize)
        requires { n ≤ length self.old.pending }
        ensures left { self.new.pending ≡ drop n self.old.pending }
        ensures reads { self.new.reads ≡ self.old.reads }
        ensures at_end { self.new.at_end ≡ self.old.at_end }
    {
        self.next += n;
    }

    /// Whether the last read found the end.
    pub(crate) fn at_end(&self) -> bool
        ensures { result ≡ self.now.at_end }
    {
        self.at_end
    }

    /// Reads once, where all was taken.
    pub(crate) fn read<R: Read>(&mut self, reader: &mut R) -> Result<(), ReadFailed>
        requires none { self.old.pending ≡ [] }
        requires going { self.old.at_end ≡ false }
        ensures given { Consumes (R.remaining reader.old)
            (R.remaining reader.new) self.new.pending }
        ensures size { length self.new.pending ≤ piece_size }
        ensures end { self.new.at_end ≡ true
            → (self.new.pending ≡ []) × IsAtEnd (R.remaining reader.new) }
        ensures reads { OnOk result (self.new.reads + 1 ≡ self.old.reads) }
        ensures fewer { self.new.reads ≤ self.old.reads }
        ensures failed { OnErr result
            ((self.new.pending ≡ []) × (self.new.at_end ≡ false)) }
    {
        if self.reads == 0 {
            return Err(ReadFailed);
        }
        self.reads -= 1;
        self.next = 0;
        self.end = 0;
        match reader.read(&mut self.buffer) {
            Ok(n) => {
                self.end = n;
                self.at_end = n == 0;
                Ok(())
            }
            Err(_) => Err(ReadFailed),
        }
    }
}
