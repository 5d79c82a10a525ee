//! The check of a stream that is read whole, and the canonical text of a model.

ghost use Rattle.std.specs.Prelude.{◌≡◌, ◌≤◌, ℕ, List, length, map, IfOk, IfErr};
ghost use Rattle.std.specs.List.{AllByRecursion};
ghost use Rattle.fz_filling.specs.of_syntax.Places.{standard_limits};
ghost use Rattle.fz_filling.specs.of_syntax.Offering.{IsTextOfAllWithin};
ghost use Rattle.fz_filling.specs.of_syntax.View.{items_of_tree};
ghost use Rattle.fz_filling.specs.of_syntax.Places.{most_bytes};
ghost use Rattle.fz_search.specs.of_model.Names.{HasNoFault};
ghost use Rattle.fz_search.specs.of_model.Texts.{IsLoadedFromWithin};
ghost use Rattle.fz_search.specs.of_model.View.{located};
ghost use Rattle.fz_filling.specs.of_stream.Found.{EndsWithin, HasPlaces, IsReadAs, IsStreamText, block_of, claims_in};
ghost use Rattle.fz_filling.specs.of_stream.Parts.{StreamPart};
ghost use Rattle.fz_check.specs.declared.account.Answer.TheVariants.{Accepted};
ghost use Rattle.fz_check.specs.Claims.{HasReport, IsReportWith, standard_options};
ghost use Rattle.fz_check.specs.Refused.{IsModelRefusal, IsRefusal};
ghost use Rattle.fz_check.specs.Reported.{HasSolutions};
ghost use Rattle.fz_check.specs.Shown.{IsShown, IsShownPrintingAll};
ghost use Rattle.fz_check.specs.Telling.{IsJudgingRefusal, IsStreamRefusal};
ghost use Rattle.fz_check.specs.View.{answer_view, report_events};

use crate::error::{CheckError, stream_refusal};
use crate::jury::Jury;
use crate::options::Options;
use crate::outputs::print_all;
use crate::report::Report;
use fz_data::{LoadError, load, load_text};
use fz_store::{Model, ModelError};
use fz_stream::{Ast, Block, Claim, Limits, Stream, SyntaxError, blocks, parse_within, to_text};
use std::alloc::Global;

/// The model of a text that is within the limits.
///
/// # Errors
///
/// `Model` where the bytes are not a text of any tree, `Names` with the first fault of its names,
/// and `Memory` where memory runs out.
pub fn read_model<'a>(
    alloc: Global,
    source: &'a [u8],
    limits: Limits,
) -> Result<Model<'a>, CheckError>
    ensures loaded { IfOk result (IsLoadedFromWithin limits source.now) }
    ensures refused { IfErr result (IsModelRefusal limits source.now) }
{
    match load_text(alloc, source, limits) {
        Ok(model) => Ok(model),
        Err(LoadError::Text(SyntaxError::Memory)) => Err(CheckError::Memory),
        Err(LoadError::Text(error)) => Err(CheckError::Model(error)),
        Err(LoadError::Names(ModelError::Memory)) => Err(CheckError::Memory),
        Err(LoadError::Names(error)) => Err(CheckError::Names(error)),
    }
}

/// The tree of a model's text.
fn read_tree<'a>(alloc: Global, source: &'a [u8], limits: Limits) -> Result<Ast<'a>, CheckError>
    ensures text { IfOk result (λ a. IsTextOfAllWithin limits source.now (items_of_tree a)) }
    ensures refused { IfErr result (IsModelRefusal limits source.now) }
{
    match parse_within(alloc, source, limits) {
        Ok(ast) => Ok(ast),
        Err(SyntaxError::Memory) => Err(CheckError::Memory),
        Err(error) => Err(CheckError::Model(error)),
    }
}

/// The tree of a model's text, whose names have no fault.
fn read_sound_tree<'a>(
    alloc: Global,
    source: &'a [u8],
    limits: Limits,
) -> Result<Ast<'a>, CheckError>
    ensures text { IfOk result (λ a. IsTextOfAllWithin limits source.now (items_of_tree a)) }
    ensures no_fault { IfOk result (λ a. HasNoFault (located a)) }
    ensures refused { IfErr result (IsModelRefusal limits source.now) }
{
    let ast = match read_tree(alloc, source, limits) {
        Ok(ast) => ast,
        Err(error) => return Err(error),
    };
    match load(alloc, &ast) {
        Ok(_) => {}
        Err(ModelError::Memory) => return Err(CheckError::Memory),
        Err(error) => return Err(CheckError::Names(error)),
    }
    Ok(ast)
}

/// The blocks and claims of a stream.
fn read_stream<'s>(alloc: Global, stream: &'s [u8]) -> Result<Stream<'s>, CheckError>
    ensures read { IfOk result (λ s. IsReadAs stream.now
        (map block_of s.blocks.items) s.claims.items) }
    ensures places { IfOk result (λ s. AllByRecursion HasPlaces s.blocks.items) }
    ensures within { IfOk result (λ s. AllByRecursion (EndsWithin usize.MAX) s.blocks.items) }
    ensures short { IfOk result (λ _. length stream.now ≤ most_bytes) }
    ensures refused { IfErr result (IsStreamRefusal stream.now) }
{
    match blocks(alloc, stream) {
        Ok(stream) => Ok(stream),
        Err(error) => Err(stream_refusal(error)),
    }
}

/// The report on the blocks and claims of a stream, by one judge, which stores the objective of the
/// block before.
fn judge_blocks<'a>(
    alloc: Global,
    model: &Model<'a>,
    blocks: &[Block<'_>],
    claims: Vec<Claim>,
) -> Result<Report<'a>, CheckError>
    requires places { AllByRecursion HasPlaces blocks.now }
    requires within { AllByRecursion (EndsWithin usize.MAX) blocks.now }
    ensures report { IfOk result (λ r. (bytes : List ℕ) → IsReadAs bytes
        (map block_of blocks.now) claims.items → IsReportWith standard_options model.now bytes
        (report_events r) (answer_view r.answer)) }
    ensures claims { IfOk result (λ r. r.claims.items ≡ claims.items) }
    ensures refused { IfErr result (IsJudgingRefusal model.now blocks.now) }
{
    let mut jury = Jury::new(model, Options::STANDARD);
    let mut verdicts = Vec::new(alloc);
    for block in blocks {
        let (verdict, _) = match jury.judge(alloc, block) {
            Ok(judged) => judged,
            Err(error) => return Err(error),
        };
        verdicts.push(verdict)?;
    }
    Ok(Report {
        verdicts,
        claims,
        answer: jury.answer(),
    })
}

/// Judges each block of a stream against a model. First the model's text is looked at, then its
/// names, then the whole stream, then its blocks. The check is refused with the first fault in this
/// order.
///
/// # Errors
///
/// `Model` where the model's bytes are not a text of any tree, `Names` with the first fault of
/// its names, `Stream` where the stream's bytes are too many or not a text of blocks and claims,
/// `Block` with the first fault of the first block that has one, and `Memory` where memory runs
/// out.
pub fn check<'a>(alloc: Global, model: &'a [u8], stream: &[u8]) -> Result<Report<'a>, CheckError>
    // What is accepted has solutions.
    ensures accepted { IfOk result (λ r. (count : ℕ) → r.answer ≡ Accepted count
        → HasSolutions model.now stream.now count) }
    // The report is the one as defined: each block with its verdict and each claim in the stream's
    // order, and the answer that follows. A block that is satisfied has a solution. A block that is
    // violated has none, or none that improves on the block before.
    ensures report { IfOk result (λ r. HasReport model.now stream.now (report_events r)
        (answer_view r.answer)) }
    // Each claim has the number of blocks before it.
    ensures claims { IfOk result (λ r. (parts : List StreamPart) → IsStreamText stream.now parts
        → r.claims.items ≡ claims_in 0 parts) }
    ensures short { IfOk result (λ _. length stream.now ≤ most_bytes) }
    // The model is refused only where its bytes are not a text of any tree, or with the first
    // fault of its names; the stream only where the model has no fault, and the stream's bytes are
    // too many or not a text of parts; a block only with the first fault.
    ensures refused { IfErr result (IsRefusal model.now stream.now) }
{
    let loaded = match read_model(alloc, model, Limits::STANDARD) {
        Ok(loaded) => loaded,
        Err(error) => return Err(error),
    };
    let Stream { blocks, claims } = match read_stream(alloc, stream) {
        Ok(found) => found,
        Err(error) => return Err(error),
    };
    judge_blocks(alloc, &loaded, &blocks, claims)
}

/// The canonical text of a model, one line for each item, as `to_text` writes it. The names of the
/// model are looked up first.
///
/// # Errors
///
/// `Model` where the bytes are not a text of any tree, `Names` with the first fault of its
/// names, and `Memory` where memory runs out.
pub fn show(alloc: Global, model: &[u8]) -> Result<Vec<u8>, CheckError>
    ensures shown { IfOk result (λ text. IsShown standard_limits model.now text.items) }
    ensures refused { IfErr result (IsModelRefusal standard_limits model.now) }
{
    show_with(alloc, model, Limits::STANDARD)
}

/// As `show`, of a model that is within these limits.
///
/// # Errors
///
/// As `show`.
pub fn show_with(alloc: Global, model: &[u8], limits: Limits) -> Result<Vec<u8>, CheckError>
    // The bytes are a text of a tree without faults, and the result is that tree's text.
    ensures shown { IfOk result (λ text. IsShown limits model.now text.items) }
    // It is refused only where the bytes are not a text of any tree, or with the first fault of
    // its names.
    ensures refused { IfErr result (IsModelRefusal limits model.now) }
{
    let ast = match read_sound_tree(alloc, model, limits) {
        Ok(ast) => ast,
        Err(error) => return Err(error),
    };
    let text = to_text(alloc, &ast)?;
    Ok(text)
}

/// As `show_with`, with `:: output_var` behind each scalar variable that lacks it. A solver that
/// runs this model prints the value of every variable, and what it prints can also be checked
/// against the model as it was.
///
/// # Errors
///
/// As `show`.
pub fn show_printing_all(alloc: Global, model: &[u8], limits: Limits) -> Result<Vec<u8>, CheckError>
    // The bytes are a text of a tree without faults, and the result is that tree's text, with the
    // annotation at each scalar variable. It is a text of the same model, with the same names,
    // domains, constraints and objective.
    ensures shown { IfOk result (λ text. IsShownPrintingAll limits model.now text.items) }
    // It is refused only where the bytes are not a text of any tree, or with the first fault of
    // its names.
    ensures refused { IfErr result (IsModelRefusal limits model.now) }
{
    let ast = match read_sound_tree(alloc, model, limits) {
        Ok(ast) => ast,
        Err(error) => return Err(error),
    };
    let printed = print_all(alloc, ast)?;
    let text = to_text(alloc, &printed)?;
    Ok(text)
}
