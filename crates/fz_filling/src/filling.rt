//! The filling of a block.

ghost use Rattle.std.specs.Prelude.{◌≡◌, ◌-◌, IfErr, IfOk, IfSome, None, OnOk, map};
ghost use Rattle.fz_filling.specs.Courses.{IsCourse};
ghost use Rattle.fz_filling.specs.Givers.{AddsInTurn, AddsSteps, AreGivers, giver_view};
ghost use Rattle.fz_index.specs.of_model.Meaning.{IsPartial};
ghost use Rattle.fz_stream.specs.Found.{EndsWithin, HasPlaces, block_of};
ghost use Rattle.fz_stream.specs.of_syntax.Places.{IsSpanWithin};
ghost use Rattle.fz_stream.specs.of_syntax.View.{bare_items};
ghost use Rattle.fz_filling.specs.BlockFaults.{AllFit, block_fault, moved};
ghost use Rattle.fz_filling.specs.Filling.{AreInTurn, IsFilledFrom, start};
ghost use Rattle.fz_filling.specs.Verdict.{IsFilled};
ghost use Rattle.fz_filling.specs.declared.completion.Completion.TheVariants.{Off, On};
ghost use Rattle.fz_filling.specs.Judged.{IsBlockRefusal, TellsKind, kind_told};
ghost use Rattle.fz_filling.specs.Working.{HasRoom, IsPlacedWithin, moved_error};

use crate::chain::fill_in;
use crate::completion::Completion;
use crate::course::Course;
use crate::error::BlockError;
use crate::further::further;
use crate::start::{nothing_proposed, start};
use crate::steps::{Giver, Steps};
use fz_index::Search;
use fz_store::{Model, Partial};
use fz_stream::{Block, Span};
use std::alloc::{AllocError, Global};

/// The byte range in the stream of one in a block's text.
fn moved_span(span: Span, offset: usize) -> Span
    ensures { IsSpanWithin (usize.MAX - offset) span → result ≡ moved offset span }
{
    // Both ends of a byte range of a block are in the stream, so nothing saturates.
    Span {
        start: offset.saturating_add(span.start),
        end: offset.saturating_add(span.end),
    }
}

/// A fault of a block, with its byte range in the stream.
fn moved_error(error: BlockError, offset: usize) -> BlockError
    ensures moved { IsPlacedWithin (usize.MAX - offset) error → result ≡ moved_error offset error }
    ensures kind { kind_told result ≡ kind_told error }
{
    match error {
        BlockError::UnknownName(span) => BlockError::UnknownName(moved_span(span, offset)),
        BlockError::Kind(span) => BlockError::Kind(moved_span(span, offset)),
        BlockError::Length(span) => BlockError::Length(moved_span(span, offset)),
        BlockError::Memory => BlockError::Memory,
    }
}

/// The values that a block prints, in the memory of a spare filling where there is one.
fn started(
    alloc: Global,
    model: &Model<'_>,
    block: &Block<'_>,
    spare: Option<Box<Partial>>,
) -> Result<Box<Partial>, BlockError>
    requires room { IfSome spare (λ s. HasRoom model.now s.value) }
    ensures started { IfOk result (λ s. s.value
        ≡ start model.now (block_of block.now)) }
    ensures fits { OnOk result (AllFit model.now (bare_items block.now.items.items)) }
    ensures kinds { IfOk result (λ s. IsPartial model.now s.value) }
    ensures only { IfErr result (λ e. TellsKind e (block_fault model.now block.now)) }
    ensures refused { IfErr result (λ e. HasPlaces block.now → EndsWithin usize.MAX block.now
        → IsBlockRefusal model.now block.now e) }
{
    let mut partial = nothing_proposed(alloc, model, spare)?;
    match start(alloc, model, &block.items, &mut partial) {
        Ok(()) => Ok(partial),
        Err(error) => Err(moved_error(error, block.offset)),
    }
}

/// Fills in what follows from the values so far, with or without values that are looked for, and
/// tells the steps where steps are told.
fn fill_by(
    alloc: Global,
    model: &Model<'_>,
    completion: Completion,
    course: &Course,
    search: &mut Option<Search>,
    partial: &mut Partial,
    steps: &mut Steps,
) -> Result<(), AllocError>
    requires fits { IsPartial model.now partial.old }
    requires course { IsCourse model.now course.now }
    ensures filled { OnOk result (IsFilledFrom completion model.now partial.old partial.new) }
    ensures kinds { OnOk result (IsPartial model.now partial.new) }
    ensures steps { OnOk result
        (AddsSteps completion model.now partial.old partial.new steps.old steps.new) }
    ensures in_turn { OnOk result
        (completion ≡ On → AddsInTurn model.now partial.old partial.new steps.old steps.new) }
{
    fill_in(alloc, model, partial, steps, course)?;
    match completion {
        Completion::Off => Ok(()),
        Completion::On => further(alloc, model, search, partial, steps),
    }
}

/// The filling of a block, with or without values that are looked for, in the memory of a spare
/// filling where there is one. What is known of fillings of the model is made the first time, and
/// stored for the next.
pub fn filled(
    alloc: Global,
    model: &Model<'_>,
    completion: Completion,
    block: &Block<'_>,
    course: &mut Option<Course>,
    search: &mut Option<Search>,
    spare: Option<Box<Partial>>,
) -> Result<Box<Partial>, BlockError>
    requires course { IfSome course.old (IsCourse model.now) }
    requires room { IfSome spare (λ s. HasRoom model.now s.value) }
    ensures filled { IfOk result (λ f. IsFilled completion model.now (block_of block.now)
        f.value) }
    ensures kinds { IfOk result (λ f. IsPartial model.now f.value) }
    ensures only { IfErr result (λ e. TellsKind e (block_fault model.now block.now)) }
    ensures refused { IfErr result (λ e. HasPlaces block.now → EndsWithin usize.MAX block.now
        → IsBlockRefusal model.now block.now e) }
    ensures course { IfSome course.new (IsCourse model.now) }
{
    let mut partial = started(alloc, model, block, spare)?;
    let mut steps = Steps::for_completion(alloc, completion);
    if let Some(known) = course {
        fill_by(
            alloc,
            model,
            completion,
            known,
            search,
            &mut partial,
            &mut steps,
        )?;
        return Ok(partial);
    }
    let known = course.insert(Course::new(alloc, model)?);
    fill_by(
        alloc,
        model,
        completion,
        known,
        search,
        &mut partial,
        &mut steps,
    )?;
    Ok(partial)
}

/// The filling of a block, with or without values that are looked for, and the steps that gave its
/// values, in the order in which they were taken.
///
/// # Errors
///
/// The same as those of `fill`.
pub fn fill_with_steps(
    alloc: Global,
    model: &Model<'_>,
    completion: Completion,
    block: &Block<'_>,
) -> Result<(Partial, Vec<Giver>), BlockError>
    ensures filled { IfOk result
        (λ f. IsFilled completion model.now (block_of block.now) f.0) }
    ensures kinds { IfOk result (λ f. IsPartial model.now f.0) }
    ensures steps { IfOk result (λ f. AreGivers completion model.now
        (start model.now (block_of block.now)) f.0 f.1.items) }
    ensures in_turn { IfOk result (λ f. completion ≡ On → AreInTurn model.now
        (start model.now (block_of block.now)) f.0 (map giver_view f.1.items)) }
    ensures only { IfErr result (λ e. TellsKind e (block_fault model.now block.now)) }
    ensures refused { IfErr result (λ e. HasPlaces block.now → EndsWithin usize.MAX block.now
        → IsBlockRefusal model.now block.now e) }
{
    let course = Course::new(alloc, model)?;
    let mut steps = Steps {
        told: Vec::new(alloc),
        is_told: true,
    };
    let mut partial = started(alloc, model, block, None)?;
    fill_by(
        alloc,
        model,
        completion,
        &course,
        &mut None,
        &mut partial,
        &mut steps,
    )?;
    Ok((Box::into_inner(partial), steps.told))
}

/// The values that follow from the printed ones by forced steps. It goes over the printed items
/// once, and over the points.
///
/// # Errors
///
/// The fault of the first printed item that has one, with its byte range in the stream, and
/// `Memory` where memory runs out.
pub fn fill(alloc: Global, model: &Model<'_>, block: &Block<'_>) -> Result<Partial, BlockError>
    ensures filled { IfOk result (λ F. IsFilled Off model.now (block_of block.now) F) }
    ensures kinds { IfOk result (λ F. IsPartial model.now F) }
    // Whatever the block: it has a fault, and its first is of the kind that the error has.
    ensures only { IfErr result (λ e. TellsKind e (block_fault model.now block.now)) }
    // Of a block as `fz_stream` reads it, with byte ranges in its text: the error is the block's
    // first fault, with its byte range in the stream.
    ensures refused { IfErr result (λ e. HasPlaces block.now → EndsWithin usize.MAX block.now
        → IsBlockRefusal model.now block.now e) }
{
    let (filling, _) = fill_with_steps(alloc, model, Completion::Off, block)?;
    Ok(filling)
}
