//! The states of a check point.

/// What is known of a check point under a partial assignment.
#[derive(Clone, Copy, Debug, PartialEq, Eq)]
pub enum State {
    Holds,
    Fails,
    NoValue,
    Unknown,
    TooLarge,
}
