//! What known streams tell, by which claims of the checked one are refuted.

ghost use Rattle.std.specs.Prelude.{◌≡◌, ◌≢◌, IfOk};
ghost use Rattle.fz_check.specs.declared.claims.Claims.TheVariants.{NotJudged};
ghost use Rattle.fz_command.specs.declared.words.Judging.TheVariants.{Nothing};

use crate::options::options_of;
use crate::reading::{Unread, open_file};
use fz_check::{
    BlockError, Branch, CheckError, Claims, Known, Listener, MOST_READS, Model, Proofs, Source,
    Verdict, block_text, learn, refusal_text,
};
use fz_command::{Check, Judging};
use fz_files::Recorder;
use std::alloc::AllocError;
use std::io::Write;

/// Whether claims are judged, and with what is known by the known streams. What refutes nothing in
/// them is told on standard error.
pub fn claims_of<'k: 't, 't>(
    rt: &HostRuntime,
    asked: &Check<'k>,
    model: &Model<'_>,
    tree: &'t [Branch<'t>],
) -> Result<Claims<'t>, Unread<'k>>
    ensures unasked { asked.now.judging ≡ Nothing → IfOk result (λ claims. claims ≡ NotJudged) }
    ensures asked { asked.now.judging ≢ Nothing → IfOk result (λ claims. claims ≢ NotJudged) }
{
    let proofs = match asked.judging {
        Judging::Nothing => return Ok(Claims::NotJudged),
        Judging::Asked => Proofs::Off,
        Judging::Proving => Proofs::On(tree),
        Judging::Implied => {
            let _ = eprintln!(rt; "{AS_IF_ASKED}");
            Proofs::Off
        }
    };
    Ok(Claims::Judged(known_of(rt, asked, model)?, proofs))
}

/// What is told where claims are judged for their streams alone.
const AS_IF_ASKED: &str = "--known without --claims: claims are judged as if it were there";

/// What is known by the known streams.
fn known_of<'k>(
    rt: &HostRuntime,
    asked: &Check<'k>,
    model: &Model<'_>,
) -> Result<Known<'k>, Unread<'k>> {
    let mut known = Known::nothing();
    for name in &asked.known {
        learn_file(rt, asked, model, *name, &mut known)?;
    }
    Ok(known)
}

/// Learns of the stream in a file.
fn learn_file<'k>(
    rt: &HostRuntime,
    asked: &Check<'k>,
    model: &Model<'_>,
    name: &'k str,
    known: &mut Known<'k>,
) -> Result<(), Unread<'k>> {
    let mut reader = Recorder::new(open_file(rt, name)?, None);
    let mut listener = Told { rt, name };
    let source = Source {
        file: name.as_bytes(),
        is_only: asked.known.len() == 1,
        block: 0,
    };
    let outcome = learn(
        rt.alloc(),
        model,
        &mut reader,
        &mut listener,
        MOST_READS,
        source,
        known,
        options_of(asked, Claims::NotJudged),
    );
    match outcome {
        Ok(()) => Ok(()),
        Err(CheckError::Stream(error)) => {
            tell(
                rt,
                name,
                refusal_text(rt.alloc(), &CheckError::Stream(error)),
            );
            Ok(())
        }
        Err(error) => Err(Unread::new(error, name, reader.into_failure())),
    }
}

/// Tells on standard error which blocks refute nothing, and why.
#[derive(Clone, Copy)]
struct Told<'r, 'k> {
    rt: &'r HostRuntime,
    name: &'k str,
}

impl Listener for Told<'_, '_> {
    fn hear(&mut self, number: usize, outcome: Result<Verdict<'_>, BlockError>) {
        let alloc = self.rt.alloc();
        let line = match outcome {
            Ok(verdict) => block_text(alloc, number, &verdict),
            Err(error) => refusal_text(alloc, &CheckError::Block(number, error)),
        };
        tell(self.rt, self.name, line);
    }
}

/// Writes a line on standard error, behind the name of its file.
fn tell(rt: &HostRuntime, name: &str, line: Result<Vec<u8>, AllocError>) {
    if let Ok(line) = line {
        let _ = eprint!(rt; "{name}: ");
        let _ = rt.stderr().write_all(&line);
    }
}
