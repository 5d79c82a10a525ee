//! Whether missing values are looked for.

/// Whether values that a solver left out, and that nothing forces, are looked for.
#[derive(Clone, Copy, PartialEq, Eq)]
pub enum Completion {
    /// A block is judged by what follows from its printed values alone.
    Off,
    /// Where a value is missing, an assignment that has the printed values is looked for.
    On,
}
