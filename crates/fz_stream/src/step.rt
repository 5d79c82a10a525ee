//! What each kind of line does to a stream.

ghost use Rattle.std.specs.Prelude.{◌≡◌};
ghost use Rattle.fz_stream.specs.Step.{step_of};

use crate::line::{ClaimKind, LineKind};

/// What a line does, where a block is open or none is. Blocks are given by the byte offset of their
/// text.
#[derive(Clone, Copy)]
pub enum Step {
    /// Nothing ends, and this block, or none, is open from then on.
    GoesOn(Option<usize>),
    /// The block ends whose text begins at this offset.
    EndsBlock(usize),
    Claims(ClaimKind),
    /// A claim is inside the block that begins at this offset, which is a fault.
    Breaks(usize),
}

/// The rules of the stream, line by line: what a line of this kind that begins at the offset `at`
/// does. `begun` is the offset of the open block, if one is open.
pub fn after_line(begun: Option<usize>, at: usize, kind: LineKind) -> Step
    ensures { result ≡ step_of begun at kind }
{
    match (kind, begun) {
        (LineKind::Blank | LineKind::Comment, _) => Step::GoesOn(begun),
        (LineKind::Item, None) => Step::GoesOn(Some(at)),
        (LineKind::Item, Some(start)) => Step::GoesOn(Some(start)),
        (LineKind::Marker, None) => Step::EndsBlock(at),
        (LineKind::Marker, Some(start)) => Step::EndsBlock(start),
        (LineKind::Claim(kind), None) => Step::Claims(kind),
        (LineKind::Claim(_), Some(start)) => Step::Breaks(start),
    }
}
