//! What is cut off where a stream ends inside a block.

ghost use Rattle.std.specs.Prelude.{◌≡◌, ◌≢◌, IfErr, IfOk};
ghost use Rattle.fz_cutting.specs.Short.{IsShort};

use crate::error::CheckError;
use crate::event::Cut;
use crate::options::{Ending, Options};
use fz_cutting::is_short;
use fz_store::Model;
use fz_stream::{Span, StreamError};
use std::alloc::Global;

/// What is cut off where the end of the stream leaves a block open, which has this byte range, and
/// with what comes behind it this text.
///
/// # Errors
///
/// `Stream` where nothing is to be cut off, or more is missing than the text's end, and `Memory`
/// where memory runs out.
pub(crate) fn cut_off<'e>(
    alloc: Global,
    model: &Model<'_>,
    options: Options<'_>,
    span: Span,
    text: &'e [u8],
) -> Result<Cut<'e>, CheckError>
    ensures cut { IfOk result (λ cut. (cut.span ≡ span) × (cut.text.now ≡ text.now)
        × (options.entry.ending ≡ Ending.Cut) × IsShort options.entry.limits model.now text.now) }
    ensures refused { IfErr result (λ e. e ≢ CheckError.Memory
        → (e ≡ CheckError.Stream (StreamError.Unfinished span))
        × (options.entry.ending ≡ Ending.Cut
        → IsShort options.entry.limits model.now text.now → ⊥)) }
{
    let is_cut = match options.ending {
        Ending::Whole => false,
        Ending::Cut => is_short(alloc, model, options.limits, text)?,
    };
    if is_cut {
        Ok(Cut { span, text })
    } else {
        Err(CheckError::Stream(StreamError::Unfinished(span)))
    }
}
