//! The lines of a report, as the parts of a stream come.

ghost use Rattle.std.specs.Prelude.{◌≡◌, ℕ, ◌<◌, ◌≤◌, ◌+◌, List, [], ◌∷◌, ◌++◌, Option, IfOk, IfErr, OnOk, OnErr, IsSome};
ghost use Rattle.fz_search.specs.of_model.Meaning.{Model as PlainModel};
ghost use Rattle.fz_filling.specs.of_stream.Parts.{StreamPart};
ghost use Rattle.fz_filling.specs.of_stream.Splitting.{most_taken};
ghost use Rattle.fz_filling.specs.of_stream.Lending.{part_of, HasPlacesOfItems, PartEndsWithin};
ghost use Rattle.fz_filling.specs.View.{verdict_view};
ghost use Rattle.fz_check.specs.Report.{AreOf};
ghost use Rattle.fz_check.specs.declared.options.Options.{Options};
ghost use Rattle.fz_check.specs.Claims.{Outcome, late_events};
ghost use Rattle.fz_check.specs.Report.Event.{Answered, Judged as PlainJudged};
ghost use Rattle.fz_check.specs.Streaming.{IsUnwritten};
ghost use Rattle.fz_check.specs.Telling.{HasTold, IsUntold, LeavesNext, TellsNext, TellsOneMore, cut_events};
ghost use Rattle.fz_check.specs.View.{answer_view, event_view};
ghost use Rattle.fz_check.specs.Writing.{Adds, WritesFront, Wrote};

use crate::account::Answer;
use crate::claims::{Refutation, Refuter, Statement};
use crate::error::CheckError;
use crate::event::{Cut, Event, Judged, Taker};
use crate::jury::Jury;
use crate::reader::PartReader;
use crate::writing::{WriteFailed, write_lines};
use fz_stream::Part;
use std::alloc::{AllocError, Global};
use std::io::Write;

/// The most bytes of lines that wait for the next read, but for the last line.
const MOST_WAITING: usize = 65_536;

/// Makes the line of an event.
fn make_line<T: Taker>(
    taker: &mut T,
    line: &mut Vec<u8>,
    event: &Event<'_, '_>,
) -> Result<(), CheckError>
    ensures made { OnOk result (AreOf T.text (event_view event.now ∷ []) line.new.items) }
    ensures kinds { IfErr result (λ e. e ≡ CheckError.Memory) }
{
    line.clear();
    match taker.take(event, line) {
        Ok(()) => Ok(()),
        Err(_) => Err(CheckError::Memory),
    }
}

/// Makes the line of a block, and that of the claim that it refutes.
fn make_block_line<T: Taker>(
    taker: &mut T,
    line: &mut Vec<u8>,
    judged: Judged<'_, '_>,
    refuted: Option<Statement>,
) -> Result<(), CheckError>
    ensures made { OnOk result (AreOf T.text (PlainJudged judged.entry.number
        (verdict_view judged.entry.verdict) ∷ late_events refuted judged.entry.number)
        line.new.items) }
    ensures kinds { IfErr result (λ e. e ≡ CheckError.Memory) }
{
    match make_line(taker, line, &Event::Block(judged)) {
        Ok(()) => {}
        Err(error) => return Err(error),
    }
    let Some(claim) = refuted else {
        return Ok(());
    };
    let by = Refuter::Behind(judged.number);
    match taker.take(&Event::Refuted(Refutation { claim, by }), line) {
        Ok(()) => Ok(()),
        Err(_) => Err(CheckError::Memory),
    }
}

/// Makes the line of the next part: of a claim, or of a block's verdict.
fn tell_part<T: Taker>(
    alloc: Global,
    jury: &mut Jury<'_, '_, '_>,
    taker: &mut T,
    line: &mut Vec<u8>,
    part: &Part<'_>,
) -> Result<(), CheckError>
    requires { jury.old.account.blocks < usize.MAX }
    ensures told { OnOk result ((o : Options) (m : PlainModel) (parts : List StreamPart)
        (outcomes : List Outcome) → HasTold o m jury.old parts outcomes
        → TellsOneMore o T.text m jury.new parts outcomes (part_of part.now) line.new.items) }
    ensures counted { OnOk result (jury.new.account.blocks ≤ jury.old.account.blocks + 1) }
    ensures refused { IfErr result (λ e. (o : Options) (m : PlainModel)
        (parts : List StreamPart) (outcomes : List Outcome)
        → HasTold o m jury.old parts outcomes → HasPlacesOfItems part.now
        → PartEndsWithin most_taken part.now → IsUntold m parts (part_of part.now) e) }
{
    match part {
        Part::Block(block) => {
            let (verdict, refuted) = match jury.judge(alloc, block) {
                Ok(judged) => judged,
                Err(error) => return Err(error),
            };
            let objective = jury.judge.objective();
            let judged = Judged {
                number: jury.account.blocks,
                block,
                verdict,
                objective,
                found: objective != jury.judge.filled_objective(),
                refuted: jury.judge.refutation(),
                model: jury.judge.model(),
            };
            make_block_line(taker, line, judged, refuted)
        }
        Part::Claim(kind) => match jury.hear_claim(alloc, *kind) {
            Ok(event) => make_line(taker, line, &event),
            Err(_) => Err(CheckError::Memory),
        },
    }
}

/// Makes the line of what was cut off, where something was.
fn make_cut<T: Taker>(
    taker: &mut T,
    line: &mut Vec<u8>,
    cut: Option<Cut<'_>>,
) -> Result<(), AllocError>
    ensures { OnOk result (AreOf T.text (cut_events cut.entry) line.new.items) }
{
    line.clear();
    match cut {
        Some(cut) => taker.take(&Event::Cut(cut), line),
        None => Ok(()),
    }
}

/// Appends the line of the answer to those that wait, behind that of what was cut off. Where there
/// is no memory for both, the others wait as before.
pub(crate) fn tell_end<T: Taker>(
    taker: &mut T,
    line: &mut Vec<u8>,
    lines: &mut Vec<u8>,
    cut: Option<Cut<'_>>,
    answer: Answer,
) -> Result<Answer, CheckError>
    ensures told { OnOk result (Adds (AreOf T.text (cut_events cut.entry
        ++ Answered (answer_view answer) ∷ [])) lines.old.items lines.new.items) }
    ensures answer { IfOk result (λ a. a ≡ answer) }
    ensures unchanged { OnErr result (lines.new.items ≡ lines.old.items) }
    ensures kinds { IfErr result (λ e. e ≡ CheckError.Memory) }
{
    make_cut(taker, line, cut)?;
    taker.take(&Event::Answer(answer), line)?;
    lines.extend_from_slice(line)?;
    Ok(answer)
}

/// Makes the line of the part that waits, which is read for it.
pub(crate) fn tell_next<T: Taker>(
    alloc: Global,
    parts: &PartReader,
    jury: &mut Jury<'_, '_, '_>,
    taker: &mut T,
    line: &mut Vec<u8>,
) -> Result<(), CheckError>
    requires waits { IsSome parts.now.splitter.waits }
    requires room { jury.old.account.blocks < usize.MAX }
    ensures told { OnOk result (TellsNext T.text parts.now jury.old jury.new line.new.items) }
    ensures counted { OnOk result (jury.new.account.blocks ≤ jury.old.account.blocks + 1) }
    ensures refused { IfErr result (LeavesNext parts.now jury.old) }
{
    let part = match parts.take() {
        Ok(part) => part,
        Err(error) => return Err(error),
    };
    tell_part(alloc, jury, taker, line, &part)
}

/// Appends the line to those that wait for the next read, or writes them all where they are many:
/// lines with long names would fill the memory. Where there is no memory for the line, the others
/// wait as before.
pub(crate) fn gather<W: Write>(
    writer: &mut W,
    lines: &mut Vec<u8>,
    line: &[u8],
) -> Result<(), CheckError>
    ensures gathered { OnOk result (Wrote (W.contents writer.old) (W.contents writer.new)
        (lines.old.items ++ line.now) lines.new.items) }
    // Once a front of those that are left is written, it is one of all.
    ensures front { OnErr result ((next : Option (List ℕ))
        → WritesFront (W.contents writer.new) next lines.new.items
        → WritesFront (W.contents writer.old) next (lines.old.items ++ line.now)) }
    ensures kinds { IfErr result IsUnwritten }
{
    match lines.extend_from_slice(line) {
        Ok(()) => {}
        Err(_) => return Err(CheckError::Memory),
    }
    if lines.len() < MOST_WAITING {
        return Ok(());
    }
    match write_lines(writer, lines) {
        Ok(()) => Ok(()),
        Err(WriteFailed) => Err(CheckError::Write),
    }
}
