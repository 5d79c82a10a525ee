//! Checks over a reader and a writer, either of which may fail.

use crate::outside::{file, number, tell};
use fz_check::{
    Answer, CheckError, Completion, Options, TextTaker, check_events, check_stream,
    check_stream_up_to,
};
use std::alloc::Global;
use std::io::{self, ErrorKind, Read, Stdout, Write};

/// A reader of what is left of a stream.
#[derive(Clone, Copy)]
struct Source<'a> {
    rest: &'a [u8],
    /// the most bytes that a read gives
    piece: usize,
    /// how many reads there are before one fails
    reads: usize,
}

impl Read for Source<'_> {
    fn read(&mut self, buf: &mut [u8]) -> io::Result<usize> {
        if self.reads == 0 {
            return Err(io::Error::from(ErrorKind::ConnectionReset));
        }
        self.reads -= 1;
        let count = self.piece.min(self.rest.len()).min(buf.len());
        buf[..count].copy_from_slice(&self.rest[..count]);
        self.rest = &self.rest[count..];
        Ok(count)
    }
}

/// A writer to standard output that takes so many bytes in all, and at most three at a time.
#[derive(Clone, Copy)]
struct Narrow {
    out: Stdout,
    room: usize,
    /// whether a write fails where there is no room, or else takes nothing
    fails: bool,
}

impl Write for Narrow {
    fn write(&mut self, buf: &[u8]) -> io::Result<usize> {
        if self.room == 0 && self.fails {
            return Err(io::Error::from(ErrorKind::StorageFull));
        }
        let count = buf.len().min(self.room).min(3);
        let taken = self.out.write(&buf[..count])?;
        self.room = self.room.saturating_sub(taken);
        Ok(taken)
    }

    fn flush(&mut self) -> io::Result<()> {
        Ok(())
    }
}

/// Checks a stream against a model. The words behind the names of their files are the most bytes of
/// a read, how many reads there are before one fails, how many bytes the writer takes, whether it
/// fails then (1) or takes nothing (0), the bound on the reads, where there is one, and how many
/// steps a search for values that were left out may take, where they are searched for.
pub fn make_call(rt: &HostRuntime, operands: &[String]) -> Option<()> {
    let model = file(rt, operands, 0)?;
    let stream = file(rt, operands, 1)?;
    let piece = number(operands, 2)?;
    let reads = number(operands, 3)?;
    let room = number(operands, 4)?;
    let fails = number(operands, 5)? == 1;
    let source = Source {
        rest: stream.as_slice(),
        piece,
        reads,
    };
    let writer = Narrow {
        out: rt.stdout(),
        room,
        fails,
    };
    let bounds = Bounds {
        most: number(operands, 6),
        steps: number(operands, 7),
    };
    tell_answer(rt, &model, source, writer, bounds);
    Some(())
}

/// How many reads are made at most, where there is a bound, and how many steps a search for values
/// that were left out may take, where they are searched for.
#[derive(Clone, Copy)]
struct Bounds {
    most: Option<usize>,
    steps: Option<usize>,
}

fn answer(
    alloc: Global,
    model: &[u8],
    mut reader: Source<'_>,
    mut writer: Narrow,
    bounds: Bounds,
) -> Result<Answer, CheckError> {
    let (reader, writer) = (&mut reader, &mut writer);
    match (bounds.most, bounds.steps) {
        (Some(most), None) => check_stream_up_to(alloc, model, reader, writer, most as u64),
        (Some(most), Some(steps)) => {
            let options = Options {
                completion: Completion::On,
                steps,
                ..Options::STANDARD
            };
            let mut taker = TextTaker;
            check_events(
                alloc,
                model,
                reader,
                writer,
                &mut taker,
                most as u64,
                options,
            )
        }
        (None, _) => check_stream(alloc, model, reader, writer),
    }
}

fn tell_answer(rt: &HostRuntime, model: &[u8], source: Source<'_>, writer: Narrow, bounds: Bounds) {
    for _ in 0..2 {
        let answer = answer(rt.alloc(), model, source, writer, bounds);
        tell(rt, &answer);
        if !matches!(answer, Err(CheckError::Memory)) {
            break;
        }
    }
}
