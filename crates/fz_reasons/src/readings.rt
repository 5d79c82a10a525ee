//! Elements of arrays.

ghost use Rattle.std.specs.Prelude.{◌≡◌, ◌<◌, IfOk, Some, length, slice_get};
ghost use Rattle.fz_builtins.specs.of_kernel.Views.{ints, slots_of, under};
ghost use Rattle.fz_reasons.specs.Reasons.{element_kind, numbers_of};

use crate::reason::ElementKind;
use fz_kernel::Elements;
use fz_kernel::numbers::number_of_truth;
use fz_store::Builtin;
use std::alloc::{AllocError, Global};

/// How many numbers there are.
pub(crate) fn number_count(elements: &Elements) -> usize
    ensures { result ≡ length (ints elements.now) }
{
    elements.len()
}

/// What the elements of a row's lists are.
pub(crate) fn element_kind(builtin: Builtin) -> ElementKind
    ensures { result ≡ element_kind builtin }
{
    match builtin {
        Builtin::FznIncreasingBool
        | Builtin::FznDecreasingBool
        | Builtin::FznLexLessBool
        | Builtin::FznLexLesseqBool
        | Builtin::FznMemberBool
        | Builtin::FznTableBool => ElementKind::Bool,
        _ => ElementKind::Int,
    }
}

/// The elements as numbers.
pub(crate) fn numbers_in(
    alloc: Global,
    kind: ElementKind,
    elements: &Elements,
) -> Result<Vec<i64>, AllocError>
    ensures { IfOk result (λ v. v.items
        ≡ numbers_of kind (under elements.now) (slots_of elements.now)) }
{
    let mut numbers = Vec::with_capacity(alloc, elements.len())?;
    for place in 0..elements.len() {
        numbers.push(number_at(kind, elements, place))?;
    }
    Ok(numbers)
}

fn number_at(kind: ElementKind, elements: &Elements, place: usize) -> i64
    requires in_range { place < length (slots_of elements.now) }
    ensures { slice_get (numbers_of kind (under elements.now) (slots_of elements.now)) place
        ≡ Some result }
{
    match kind {
        ElementKind::Int => elements.int(place),
        ElementKind::Bool => number_of_truth(elements.truth(place)),
    }
}
