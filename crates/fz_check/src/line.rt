//! The lines of a report, one at a time.

ghost use Rattle.std.specs.Prelude.{◌≡◌, ◌++◌, ◌∷◌, [], IfOk, OnOk, codes, decimal, take};
ghost use Rattle.fz_check.specs.Report.{claim_text, event_line, is_shown, most_shown, nodes_text, place_text, refuter_text, shown_front, verdict_text};
ghost use Rattle.std.specs.List.{prefix_len};
ghost use Rattle.fz_check.specs.Report.Event.{Answered, Claimed, CutOff, Judged, Proved, Refuted};
ghost use Rattle.fz_filling.specs.View.{verdict_view};
ghost use Rattle.fz_check.specs.View.{answer_view};

use crate::account::Answer;
use crate::claims::{Refutation, Refuter, Statement};
use crate::event::Cut;
use crate::text::{push_bytes, push_count, push_fault, push_reason};
use fz_filling::Verdict;
use fz_stream::ClaimKind;
use std::alloc::{AllocError, Global};

/// The most bytes that are shown of a text that is cut off.
const MOST_SHOWN: usize = 60;

/// A claim's line in a stream, without blanks at its ends.
pub fn claim_text(kind: ClaimKind) -> &'static [u8]
    ensures { result.now ≡ claim_text kind }
{
    match kind {
        ClaimKind::Complete => b"==========",
        ClaimKind::Unsatisfiable => b"=====UNSATISFIABLE=====",
        ClaimKind::Unknown => b"=====UNKNOWN=====",
        ClaimKind::Unbounded => b"=====UNBOUNDED=====",
        ClaimKind::UnsatOrUnbounded => b"=====UNSATorUNBOUNDED=====",
        ClaimKind::Error => b"=====ERROR=====",
    }
}

/// Adds the line of a claim.
pub(crate) fn push_claim(text: &mut Vec<u8>, kind: ClaimKind) -> Result<(), AllocError>
    ensures { OnOk result (text.new.items
        ≡ text.old.items ++ event_line (Claimed kind)) }
{
    push_bytes(text, b"claim: ")?;
    push_bytes(text, claim_text(kind))?;
    push_bytes(text, b" not judged\n")?;
    Ok(())
}

/// Adds how many nodes there are, with the LF.
fn push_nodes(text: &mut Vec<u8>, nodes: usize) -> Result<(), AllocError>
    ensures { OnOk result (text.new.items ≡ text.old.items ++ (nodes_text nodes ++ 10 ∷ [])) }
{
    push_count(text, nodes)?;
    if nodes == 1 {
        push_bytes(text, b" node\n")
    } else {
        push_bytes(text, b" nodes\n")
    }
}

/// Adds the line of a claim that so many nodes show.
pub(crate) fn push_proof(
    text: &mut Vec<u8>,
    claim: &Statement,
    nodes: usize,
) -> Result<(), AllocError>
    ensures { OnOk result (text.new.items
        ≡ text.old.items ++ event_line (Proved claim.now nodes)) }
{
    push_bytes(text, b"claim: ")?;
    push_bytes(text, claim_text(claim.kind))?;
    push_bytes(text, b" proved, ")?;
    push_nodes(text, nodes)?;
    Ok(())
}

/// Adds the name of the block that refutes a claim.
fn push_refuter(text: &mut Vec<u8>, refuter: &Refuter<'_>) -> Result<(), AllocError>
    ensures { OnOk result (text.new.items ≡ text.old.items ++ refuter_text refuter.now) }
{
    let source = match *refuter {
        Refuter::Block(number) | Refuter::Behind(number) => {
            push_bytes(text, b"block ")?;
            return push_count(text, number);
        }
        Refuter::Known(source) => source,
    };
    push_bytes(text, b"known block ")?;
    push_count(text, source.block)?;
    if source.is_only {
        return Ok(());
    }
    push_bytes(text, b" of ")?;
    push_bytes(text, source.file)?;
    Ok(())
}

/// Adds the place of a claim: none where it is told at its place.
fn push_place(text: &mut Vec<u8>, after: usize, refuter: &Refuter<'_>) -> Result<(), AllocError>
    ensures { OnOk result (text.new.items ≡ text.old.items ++ place_text after refuter.now) }
{
    match refuter {
        Refuter::Behind(_) => {
            push_bytes(text, b"claim after block ")?;
            push_count(text, after)?;
            push_bytes(text, b": ")?;
            Ok(())
        }
        Refuter::Block(_) | Refuter::Known(_) => push_bytes(text, b"claim: "),
    }
}

/// Adds the line of a claim that is refuted.
pub(crate) fn push_refutation(
    text: &mut Vec<u8>,
    refutation: &Refutation<'_>,
) -> Result<(), AllocError>
    ensures { OnOk result (text.new.items
        ≡ text.old.items ++ event_line (Refuted refutation.now)) }
{
    push_place(text, refutation.claim.after, &refutation.by)?;
    push_bytes(text, claim_text(refutation.claim.kind))?;
    push_bytes(text, b" refuted by ")?;
    push_refuter(text, &refutation.by)?;
    push_bytes(text, b"\n")?;
    Ok(())
}

/// Adds a verdict after its block's number, with its LF.
fn push_verdict(text: &mut Vec<u8>, verdict: &Verdict<'_>) -> Result<(), AllocError>
    ensures { OnOk result (text.new.items
        ≡ text.old.items ++ (codes ": " ++ verdict_text (verdict_view verdict.now) ++ 10 ∷ [])) }
{
    match verdict {
        Verdict::Satisfied => push_bytes(text, b": satisfied\n"),
        Verdict::Violated(fault) => {
            push_bytes(text, b": violated: ")?;
            push_fault(text, fault)?;
            push_bytes(text, b"\n")?;
            Ok(())
        }
        Verdict::Undecided(reason) => {
            push_bytes(text, b": undecided: ")?;
            push_reason(text, reason)?;
            push_bytes(text, b"\n")?;
            Ok(())
        }
    }
}

/// Adds the line of the block with this number.
pub(crate) fn push_block(
    text: &mut Vec<u8>,
    number: usize,
    verdict: &Verdict<'_>,
) -> Result<(), AllocError>
    ensures { OnOk result (text.new.items
        ≡ text.old.items ++ event_line (Judged number (verdict_view verdict.now))) }
{
    push_bytes(text, b"block ")?;
    push_count(text, number)?;
    push_verdict(text, verdict)?;
    Ok(())
}

/// The line of the block with this number, as it is in a report.
///
/// # Errors
///
/// Out of memory.
pub fn block_text(
    alloc: Global,
    number: usize,
    verdict: &Verdict<'_>,
) -> Result<Vec<u8>, AllocError>
    ensures { IfOk result (λ text. text.items
        ≡ event_line (Judged number (verdict_view verdict.now))) }
{
    let mut text = Vec::new(alloc);
    push_block(&mut text, number, verdict)?;
    Ok(text)
}

/// Whether a byte is shown: one of ASCII that is no control character.
fn is_shown(byte: u8) -> bool
    ensures { result ≡ is_shown byte }
{
    32 <= byte && byte <= 126
}

/// How many bytes at the front of a text are shown.
fn shown_len(text: &[u8]) -> usize
    ensures { result ≡ prefix_len is_shown text.now }
{
    let mut rest = text;
    while let Some((first, others)) = rest.split_first() {
        if !is_shown(*first) {
            return text.len() - rest.len();
        }
        rest = others;
    }
    text.len()
}

/// The first 60 bytes of a text.
fn first_bytes(text: &[u8]) -> &[u8]
    ensures { result.now ≡ take most_shown text.now }
{
    if text.len() < MOST_SHOWN {
        text
    } else {
        &text[..MOST_SHOWN]
    }
}

/// What is shown of a text that is cut off: its first 60 bytes, up to the end of the line.
pub fn shown_front(text: &[u8]) -> &[u8]
    ensures { result.now ≡ shown_front text.now }
{
    let front = first_bytes(text);
    &front[..shown_len(front)]
}

/// Adds the line of what was cut off.
pub(crate) fn push_cut(text: &mut Vec<u8>, cut: &Cut<'_>) -> Result<(), AllocError>
    ensures { OnOk result (text.new.items
        ≡ text.old.items ++ event_line (CutOff cut.now.span cut.now.text.now)) }
{
    push_bytes(text, b"cut: ")?;
    push_count(text, cut.span.start)?;
    push_bytes(text, b"..")?;
    push_count(text, cut.span.end)?;
    push_bytes(text, b", from \"")?;
    push_bytes(text, shown_front(cut.text))?;
    push_bytes(text, b"\"\n")?;
    Ok(())
}

/// Adds the line of the answer.
pub(crate) fn push_answer(text: &mut Vec<u8>, answer: Answer) -> Result<(), AllocError>
    ensures { OnOk result (text.new.items
        ≡ text.old.items ++ event_line (Answered (answer_view answer))) }
{
    match answer {
        Answer::Accepted(count) => push_numbered(text, b"accepted: blocks ", count),
        Answer::Rejected(number) => push_numbered(text, b"rejected: block ", number),
        Answer::Undecided(number) => push_numbered(text, b"undecided: block ", number),
        Answer::NoBlocks => push_bytes(text, b"no blocks\n"),
        Answer::ClaimRejected(after) => {
            push_numbered(text, b"rejected: claim after block ", after)
        }
    }
}

/// Adds words and a number as a line.
fn push_numbered(text: &mut Vec<u8>, words: &[u8], number: usize) -> Result<(), AllocError>
    ensures { OnOk result (text.new.items
        ≡ text.old.items ++ (words.now ++ decimal number ++ 10 ∷ [])) }
{
    push_bytes(text, words)?;
    push_count(text, number)?;
    push_bytes(text, b"\n")?;
    Ok(())
}
