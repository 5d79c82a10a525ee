//! The report on a stream that was read whole, and its text.

ghost use Rattle.std.specs.Prelude.{◌≡◌, [], ◌∷◌, ◌++◌, map, IfOk, OnOk};
ghost use Rattle.fz_filling.specs.View.{verdict_view};
ghost use Rattle.fz_check.specs.Report.{claimed, claims_by, claims_past, event_line, in_order, text_of};
ghost use Rattle.fz_check.specs.Report.Event.{Answered};
ghost use Rattle.fz_check.specs.View.{answer_view, report_events};

use crate::account::Answer;
use crate::line::{push_answer, push_block, push_claim};
use fz_filling::Verdict;
use fz_stream::Claim;
use std::alloc::{AllocError, Global};

/// What is told of a stream: the verdicts on its blocks in order, its claims, and the answer.
#[derive(Debug, Drop)]
pub struct Report<'a> {
    pub verdicts: Vec<Verdict<'a>>,
    pub claims: Vec<Claim>,
    pub answer: Answer,
}

/// Adds the lines of the claims at the front that come after so many blocks or fewer, and gives the
/// others.
fn push_claims<'c>(
    text: &mut Vec<u8>,
    claims: &'c [Claim],
    after: usize,
) -> Result<&'c [Claim], AllocError>
    ensures added { OnOk result (text.new.items
        ≡ text.old.items ++ text_of event_line (claims_by after claims.now)) }
    ensures rest { IfOk result (λ rest. rest.now ≡ claims_past after claims.now) }
{
    let mut rest = claims;
    while let Some((first, others)) = rest.split_first() {
        if after < first.after {
            return Ok(rest);
        }
        push_claim(text, first.kind)?;
        rest = others;
    }
    Ok(rest)
}

/// Adds the lines of claims.
fn push_rest(text: &mut Vec<u8>, claims: &[Claim]) -> Result<(), AllocError>
    ensures { OnOk result (text.new.items
        ≡ text.old.items ++ text_of event_line (map claimed claims.now)) }
{
    for claim in claims {
        push_claim(text, claim.kind)?;
    }
    Ok(())
}

/// Adds a line for each block and each claim in the stream's order.
fn push_parts(
    text: &mut Vec<u8>,
    verdicts: &[Verdict<'_>],
    claims: &[Claim],
) -> Result<(), AllocError>
    ensures { OnOk result (text.new.items ≡ text.old.items
        ++ text_of event_line (in_order 0 (map verdict_view verdicts.now) claims.now)) }
{
    let mut rest = claims;
    for (index, verdict) in verdicts.iter().enumerate() {
        rest = push_claims(text, rest, index)?;
        push_block(text, index + 1, verdict)?;
    }
    push_rest(text, rest)
}

/// The text of a report: a line for each block and each claim in the stream's order, and then the
/// answer.
///
/// # Errors
///
/// Out of memory.
pub fn report_text(alloc: Global, report: &Report<'_>) -> Result<Vec<u8>, AllocError>
    ensures { IfOk result (λ text. text.items ≡ text_of event_line
        (report_events report.now ++ Answered (answer_view report.now.answer) ∷ [])) }
{
    let mut text = Vec::new(alloc);
    push_parts(&mut text, &report.verdicts, &report.claims)?;
    push_answer(&mut text, report.answer)?;
    Ok(text)
}
