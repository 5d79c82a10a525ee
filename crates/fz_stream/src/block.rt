//! A solution block, and how its text is read.

ghost use Rattle.std.specs.Prelude.{◌≡◌, ◌≢◌, ◌+◌, ◌≤◌, List, length, IfOk, IfErr, IfSome, IfNone};
ghost use Rattle.fz_syntax.specs.declared.Printed.{Printed};
ghost use Rattle.fz_syntax.specs.Tree.{Printed as PlainPrinted};
ghost use Rattle.fz_syntax.specs.View.{bare_items};
ghost use Rattle.fz_stream.specs.Faults.{IsFaultWithin};
ghost use Rattle.fz_stream.specs.Found.{HasPlaces};
ghost use Rattle.fz_stream.specs.Parts.{IsBlockText, HasDistinctNames};
ghost use Rattle.fz_stream.specs.Step.{IsLineFault};
ghost use Rattle.fz_stream.specs.Telling.{PrintsAgain, TellsOfText};

use crate::error::{StreamError, item_fault, moved_span};
use crate::hashing::Names;
use fz_syntax::{Limits, Printed, Span, read_items_within};
use std::alloc::{AllocError, Global};
use std::hash::BuildHasherDefault;

/// What a solver printed of one solution.
#[derive(Drop)]
pub struct Block<'a> {
    /// The byte offset of the text in the stream.
    pub offset: usize,
    /// From the first byte of the first item line to the first byte of the marker's line.
    pub text: &'a [u8],
    /// What the text prints. Byte ranges count from the text's first byte.
    pub items: Vec<Printed<'a>>,
}

/// The byte range of the first name that is printed a second time.
fn repeated_name(alloc: Global, items: &[Printed<'_>]) -> Result<Option<Span>, AllocError>
    ensures none { IfOk result (λ found. IfNone found (HasDistinctNames (bare_items items.now))) }
    ensures some { IfOk result (λ found. IfSome found
        (λ _. HasDistinctNames (bare_items items.now) → ⊥)) }
    ensures place { IfOk result (λ found. IfSome found
        (λ span. (again : Printed) × PrintsAgain items.now again × (span ≡ again.name.span))) }
{
    if items.len() < 2 {
        return Ok(None);
    }
    let mut names = Names::with_capacity_and_hasher(alloc, items.len(), BuildHasherDefault::new())?;
    for item in items {
        let (_, is_new) = names.insert_full(item.name.text)?;
        if !is_new {
            return Ok(Some(item.name.span));
        }
    }
    Ok(None)
}

/// Reads the block of a text, which is within the limits and begins at an offset of the stream.
pub fn read_block<'a>(
    alloc: Global,
    offset: usize,
    text: &'a [u8],
    limits: Limits,
) -> Result<Block<'a>, StreamError>
    requires fits { offset + length text.now ≤ usize.MAX }
    requires short { length text.now ≤ limits.bytes }
    ensures offset { IfOk result (λ b. b.offset ≡ offset) }
    ensures text { IfOk result (λ b. b.text.now ≡ text.now) }
    ensures items { IfOk result (λ b. IsBlockText limits text.now (bare_items b.items.items)) }
    ensures only { IfOk result (λ b. (others : List PlainPrinted)
        → IsBlockText limits text.now others → others ≡ bare_items b.items.items) }
    ensures places { IfOk result HasPlaces }
    ensures refused { IfErr result (λ e. e ≢ StreamError.Memory → (items : List PlainPrinted)
        → IsBlockText limits text.now items → ⊥) }
    ensures fault { IfErr result IsLineFault }
    ensures place { IfErr result (IsFaultWithin (offset + length text.now)) }
    ensures tells { IfErr result (TellsOfText limits offset text.now) }
{
    let items = match read_items_within(alloc, text, limits) {
        Ok(items) => items,
        Err(e) => return Err(item_fault(e, offset)),
    };
    if let Some(span) = repeated_name(alloc, &items)? {
        return Err(StreamError::DuplicateName(moved_span(span, offset)));
    }
    Ok(Block {
        offset,
        text,
        items,
    })
}
