//! The line and the byte range of a refusal, and the exit status of the program.

ghost use Rattle.std.specs.Prelude.{◌≡◌, ◌++◌, IfOk, OnOk, option_map};
ghost use Rattle.fz_check.specs.Refusal.{block_fault, model_fault, named, named_text, refusal_fault, refusal_line, status_of, stream_fault, syntax_fault};

use crate::account::Answer;
use crate::error::CheckError;
use crate::text::{push_bytes, push_count};
use fz_filling::BlockError;
use fz_store::ModelError;
use fz_stream::{Span, StreamError, SyntaxError};
use std::alloc::{AllocError, Global};

/// The name of a fault, and its byte range where it has one.
#[derive(Clone, Copy)]
pub struct Told {
    pub name: &'static [u8],
    pub place: Option<Span>,
}

impl Told {
    fn at(name: &'static [u8], span: Span) -> Told
        ensures { named result ≡ record { name = name.entry.now; place = Some span } }
    {
        Told {
            name,
            place: Some(span),
        }
    }

    fn nowhere(name: &'static [u8]) -> Told
        ensures { named result ≡ record { name = name.entry.now; place = None } }
    {
        Told { name, place: None }
    }
}

fn told_syntax(error: SyntaxError) -> Told
    ensures { named result ≡ syntax_fault error }
{
    match error {
        SyntaxError::TooLong => Told::nowhere(b"TooLong"),
        SyntaxError::BadByte(span) => Told::at(b"BadByte", span),
        SyntaxError::TooLarge(span) => Told::at(b"TooLarge", span),
        SyntaxError::Float(span) => Told::at(b"Float", span),
        SyntaxError::Syntax(span) => Told::at(b"Syntax", span),
        SyntaxError::TooDeep(span) => Told::at(b"TooDeep", span),
        SyntaxError::TooMany(span) => Told::at(b"TooMany", span),
        SyntaxError::Memory => Told::nowhere(b"Memory"),
    }
}

fn told_model(error: ModelError) -> Told
    ensures { named result ≡ model_fault error }
{
    match error {
        ModelError::DuplicateName(span) => Told::at(b"DuplicateName", span),
        ModelError::UnknownName(span) => Told::at(b"UnknownName", span),
        ModelError::Kind(span) => Told::at(b"Kind", span),
        ModelError::Length(span) => Told::at(b"Length", span),
        ModelError::Memory => Told::nowhere(b"Memory"),
    }
}

fn told_stream(error: StreamError) -> Told
    ensures { named result ≡ stream_fault error }
{
    match error {
        StreamError::TooLong => Told::nowhere(b"TooLong"),
        StreamError::Item(inner) => told_syntax(inner),
        StreamError::DuplicateName(span) => Told::at(b"DuplicateName", span),
        StreamError::Unfinished(span) => Told::at(b"Unfinished", span),
        StreamError::Memory => Told::nowhere(b"Memory"),
        StreamError::Failed => Told::nowhere(b"Failed"),
    }
}

fn told_block(error: BlockError) -> Told
    ensures { named result ≡ block_fault error }
{
    match error {
        BlockError::UnknownName(span) => Told::at(b"UnknownName", span),
        BlockError::Kind(span) => Told::at(b"Kind", span),
        BlockError::Length(span) => Told::at(b"Length", span),
        BlockError::Memory => Told::nowhere(b"Memory"),
    }
}

/// Adds a fault's name, and ` at START..END` where it has a byte range.
fn push_told(text: &mut Vec<u8>, told: Told) -> Result<(), AllocError>
    ensures { OnOk result (text.new.items ≡ text.old.items ++ named_text (named told)) }
{
    push_bytes(text, told.name)?;
    let Some(span) = told.place else {
        return Ok(());
    };
    push_bytes(text, b" at ")?;
    push_count(text, span.start)?;
    push_bytes(text, b"..")?;
    push_count(text, span.end)?;
    Ok(())
}

/// The line that the program writes to standard error where a check is refused, with its LF:
/// `refused: model: NAME at START..END` and the like.
///
/// # Errors
///
/// Out of memory.
pub fn refusal_text(alloc: Global, error: &CheckError) -> Result<Vec<u8>, AllocError>
    ensures { IfOk result (λ text. text.items ≡ refusal_line error.now) }
{
    let mut text = Vec::from_slice(alloc, b"refused: ")?;
    match *error {
        CheckError::Model(inner) => {
            push_bytes(&mut text, b"model: ")?;
            push_told(&mut text, told_syntax(inner))?;
        }
        CheckError::Names(inner) => {
            push_bytes(&mut text, b"model: ")?;
            push_told(&mut text, told_model(inner))?;
        }
        CheckError::Stream(inner) => {
            push_bytes(&mut text, b"stream: ")?;
            push_told(&mut text, told_stream(inner))?;
        }
        CheckError::Block(number, inner) => {
            push_bytes(&mut text, b"block ")?;
            push_count(&mut text, number)?;
            push_bytes(&mut text, b": ")?;
            push_told(&mut text, told_block(inner))?;
        }
        CheckError::Memory => push_bytes(&mut text, b"memory")?,
        CheckError::Read => push_bytes(&mut text, b"read")?,
        CheckError::Write => push_bytes(&mut text, b"write")?,
    }
    push_bytes(&mut text, b"\n")?;
    Ok(text)
}

/// The name and the byte range of the fault, which is counted from 0 in the model's text or in the
/// whole stream. A text that is too long has no byte range; memory that ran out, and a read or a
/// write that failed, have no fault.
pub fn refusal_fault(error: &CheckError) -> Option<Told>
    ensures { option_map named result ≡ refusal_fault error.now }
{
    match *error {
        CheckError::Model(inner) => Some(told_syntax(inner)),
        CheckError::Names(inner) => Some(told_model(inner)),
        CheckError::Stream(inner) => Some(told_stream(inner)),
        CheckError::Block(_, inner) => Some(told_block(inner)),
        CheckError::Memory | CheckError::Read | CheckError::Write => None,
    }
}

/// The exit status of the program for what a check answered: 0 accepted, 1 rejected, 2 undecided,
/// 3 no blocks, 4 refused, 6 a read or a write failed, 7 out of memory. It takes no memory.
pub fn status(outcome: &Result<Answer, CheckError>) -> u8
    ensures { result ≡ status_of outcome.now }
{
    match outcome {
        Ok(Answer::Accepted(_)) => 0,
        Ok(Answer::Rejected(_) | Answer::ClaimRejected(_)) => 1,
        Ok(Answer::Undecided(_)) => 2,
        Ok(Answer::NoBlocks) => 3,
        Err(CheckError::Read | CheckError::Write) => 6,
        Err(CheckError::Memory) => 7,
        Err(_) => 4,
    }
}
