//! The kinds of values.

/// What a value is: an integer, a Boolean or a finite set of integers.
#[derive(Clone, Copy, Debug, PartialEq, Eq)]
pub enum Kind {
    Int,
    Bool,
    Set,
}
