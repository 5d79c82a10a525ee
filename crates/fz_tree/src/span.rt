//! Byte ranges of a source.

/// A byte range of a source: the bytes from `start` up to but not including `end`, counted from 0.
/// A span that marks the end of a source is empty.
#[derive(Clone, Copy, Debug, PartialEq, Eq)]
pub struct Span {
    pub start: usize,
    pub end: usize,
}
